// Records as they stand in a file.
ghost use Rattle.std.specs.Prelude.{◌≡◌, ◌<◌};
ghost use Rattle.account.specs.Records as Records;
ghost use Rattle.account.specs.Records.{record_at, record_count};
ghost use Rattle.account.specs.code.Notes.{before_at};

use record::bytes::RECORD_BYTES;

// How many whole records a file has.
pub fn record_count(file: &[u8]) -> usize
    ensures { result ≡ record_count file.now }
{
    file.len() / RECORD_BYTES
}

// The same bytes. A slice that was made just before and is handed on as it came is copied as a whole, and the copy waits for its two halves.
pub(crate) fn anew(file: &[u8]) -> &[u8]
    ensures { result.now ≡ file.now }
{
    &file[0..file.len()]
}

// `n` records from record `k` on, or what the file has of them.
pub fn stretch(file: &[u8], k: usize, n: usize) -> &[u8]
    ensures { result.now ≡ Records.stretch file.now k n }
{
    if record_count(file) < k {
        return &file[file.len()..];
    }
    let rest = &file[k * RECORD_BYTES..];
    if record_count(rest) < n {
        return rest;
    }
    &rest[..n * RECORD_BYTES]
}

pub fn record_at(file: &[u8], k: usize) -> &[u8]
    ensures { result.now ≡ record_at file.now k }
{
    stretch(file, k, 1)
}

// Record `k` where the file has it, read at its known length.
pub fn whole_at(file: &[u8], k: usize) -> &[u8]
    requires { k < record_count file.now }
    ensures { result.now ≡ record_at file.now k }
{
    let start = k * RECORD_BYTES;
    &file[start..start + RECORD_BYTES]
}

// The record before it.
pub(crate) fn whole_before(file: &[u8], k: usize) -> &[u8]
    requires { k < record_count file.now }
    ensures { result.now ≡ before_at file.now k }
{
    if k == 0 {
        &file[..0]
    } else {
        whole_at(file, k - 1)
    }
}
