// Numbers in a record: little-endian, two's complement where signed. Past the record's end a byte counts as 0.
ghost use Rattle.std.specs.Prelude.{◌≡◌, ◌+◌, ◌<◌, length};
ghost use Rattle.record.specs.Bytes.{byte_at, u16_at, u32_at, i32_at, twos_complement};

pub const RECORD_BYTES: usize = 96;

pub(crate) fn byte_at(r: &[u8], o: usize) -> usize
    ensures { (result ≡ byte_at r.now o) × (result < 256) }
{
    if o < r.len() { usize::from(r[o]) } else { 0 }
}

pub(crate) fn u16_at(r: &[u8], o: usize) -> usize
    ensures { (result ≡ u16_at r.now o) × (result < 65536) }
{
    if o < r.len() {
        byte_at(r, o) + 256 * byte_at(r, o + 1)
    } else {
        0
    }
}

// Where all four bytes are there, they are read at once.
pub(crate) fn u32_at(r: &[u8], o: usize) -> usize
    ensures { (result ≡ u32_at r.now o) × (result < 4294967296) }
{
    if r.len() <= o {
        0
    } else if 3 < r.len() - o {
        u32_in(r, o)
    } else {
        u16_at(r, o) + 65536 * u16_at(r, o + 2)
    }
}

// The same of bytes that are there.
pub(crate) fn byte_in(r: &[u8], o: usize) -> usize
    requires { o < length r.now }
    ensures { (result ≡ byte_at r.now o) × (result < 256) }
{
    usize::from(r[o])
}

pub(crate) fn u16_in(r: &[u8], o: usize) -> usize
    requires { o + 1 < length r.now }
    ensures { (result ≡ u16_at r.now o) × (result < 65536) }
{
    byte_in(r, o) + 256 * byte_in(r, o + 1)
}

pub(crate) fn u32_in(r: &[u8], o: usize) -> usize
    requires { o + 3 < length r.now }
    ensures { (result ≡ u32_at r.now o) × (result < 4294967296) }
{
    u16_in(r, o) + 65536 * u16_in(r, o + 2)
}

// The signed number that 32 bits stand for.
fn signed(x: usize) -> i64
    requires { x < 4294967296 }
    ensures { result ≡ twos_complement x }
{
    ((x + 2147483648) % 4294967296) as i64 - 2147483648
}

pub(crate) fn i32_at(r: &[u8], o: usize) -> i64
    ensures { result ≡ i32_at r.now o }
{
    signed(u32_at(r, o))
}
