// A record put among the bytes of a file, where they stand: the later bytes are moved up, and the record is put in their place.
ghost use Rattle.std.specs.Prelude.{◌≡◌, ◌++◌, ◌+◌, ◌≤◌, length, take, drop};
ghost use Rattle.record.specs.Layout.{record_bytes};
ghost use Rattle.screen.specs.code.Inserting.{moved_up, inserted};

use record::bytes::RECORD_BYTES;

// The bytes from `at` to before `end` moved up by a record, the last first; one by one, so that no memmove is called.
fn move_up(lent: &mut [u8], at: usize, end: usize)
    requires { (at ≤ end) × (end + record_bytes ≤ length lent.old) }
    ensures { lent.new ≡ moved_up at end lent.old }
{
    for i in (at..end).rev() {
        lent[i + RECORD_BYTES] = lent[i];
    }
}

// A record put at `at` among the first `end` bytes; the bytes after the room that it takes stay.
pub(crate) fn insert(lent: &mut [u8], at: usize, end: usize, row: &[u8])
    requires { (length row.now ≡ record_bytes) × ((at ≤ end) × (end + record_bytes ≤ length lent.old)) }
    ensures { lent.new ≡ inserted at end row.now lent.old }
{
    // of a length that the compiler knows, so that no memmove is called here either
    let whole = &row[..RECORD_BYTES];
    move_up(lent, at, end);
    lent[at..at + RECORD_BYTES].copy_from_slice(whole);
}
