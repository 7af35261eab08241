// Entries put one after the other.
ghost use Rattle.std.specs.Prelude.{◌≡◌, ◌+◌, ◌*◌, ◌≤◌, ◌<◌, length, take};
ghost use Rattle.account.specs.Records.{record_at, record_count};
ghost use Rattle.writing.specs.Order.{Ordered};
ghost use Rattle.writing.specs.Written.{written, filled_in};

use crate::places::place_at;
use account::stretches::whole_at;
use record::bytes::RECORD_BYTES;

// Record `k` of the file, where it was entered.
pub(crate) fn entry_at<'a>(entries: &'a [u8], order: &[u16], k: usize) -> &'a [u8]
    requires { Ordered entries.now order.now × (k < record_count entries.now) }
    ensures { result.now ≡ record_at (written entries.now) k }
{
    whole_at(entries, usize::from(place_at(order, k)))
}

// `n` records of the file, from record `k` on, at the front of `out`.
pub(crate) fn fill(entries: &[u8], order: &[u16], k: usize, n: usize, out: &mut [u8])
    requires { Ordered entries.now order.now × ((k + n ≤ record_count entries.now) × (n * 96 ≤ length out.old)) }
    ensures { out.new ≡ filled_in entries.now k n out.old }
{
    for i in 0..n {
        let r = entry_at(entries, order, k + i);
        let start = i * RECORD_BYTES;
        out[start..start + RECORD_BYTES].copy_from_slice(r);
    }
}
