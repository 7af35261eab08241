// The bytes of a whole record that no field of its kind covers.
ghost use Rattle.std.specs.Prelude.{◌≡◌, [], ◌+◌, ◌-◌, ◌≤◌, ◌<◌, length};
ghost use Rattle.exact.specs.Lists.{any};
ghost use Rattle.record.specs.Bytes.{count_from};
ghost use Rattle.record.specs.Layout.{record_bytes, contract_fields, prompt_fields, row_fields, spread_fields, entry_fields, rate_fields};
ghost use Rattle.record.specs.Ranges.{not_zero, unused_beside};

use crate::bytes::{RECORD_BYTES, byte_in, u32_in};
use crate::layout;

fn is_set(r: &[u8], o: usize) -> bool
    requires { o < length r.now }
    ensures { result ≡ not_zero r.now o }
{
    byte_in(r, o) != 0
}

// Whether any byte from `o` up to `end` is set. The loop has no way out, so that many bytes are tested at once.
fn set_between(r: &[u8], o: usize, end: usize) -> bool
    requires { end ≤ length r.now }
    ensures { result ≡ any (not_zero r.now) (count_from o (end - o)) }
{
    let mut set = false;
    for i in o..end {
        set |= r[i] != 0;
    }
    set
}

// Whether any of the four bytes from `o` on is set: they are read as one number.
fn any_of_four(r: &[u8], o: usize) -> bool
    requires { o + 3 < length r.now }
    ensures { result ≡ any (not_zero r.now) (count_from o 4) }
{
    u32_in(r, o) != 0
}

fn any_of_sixteen(r: &[u8], o: usize) -> bool
    requires { o + 15 < length r.now }
    ensures { result ≡ any (not_zero r.now) (count_from o 16) }
{
    any_of_four(r, o) | any_of_four(r, o + 4) | any_of_four(r, o + 8) | any_of_four(r, o + 12)
}

// Bytes 32 to 95. Here and below there is no loop, so that many bytes are tested at once.
fn any_from_thirty_two(r: &[u8]) -> bool
    requires { record_bytes ≤ length r.now }
    ensures { result ≡ any (not_zero r.now) (count_from 32 64) }
{
    any_of_sixteen(r, 32) | any_of_sixteen(r, 48) | any_of_sixteen(r, 64) | any_of_sixteen(r, 80)
}

// Bytes 10 to 95, which are those after the fields of a contract.
fn any_from_ten(r: &[u8]) -> bool
    requires { record_bytes ≤ length r.now }
    ensures { result ≡ any (not_zero r.now) (count_from 10 86) }
{
    is_set(r, layout::CONTRACT_END)
        | is_set(r, layout::CONTRACT_END + 1)
        | any_of_four(r, 12)
        | any_of_sixteen(r, 16)
        | any_from_thirty_two(r)
}

pub(crate) fn beside_contract(r: &[u8]) -> bool
    requires { record_bytes ≤ length r.now }
    ensures { result ≡ unused_beside contract_fields r.now }
{
    is_set(r, layout::EARLY_GAP) | is_set(r, layout::GAP) | any_from_ten(r)
}

pub(crate) fn beside_prompt(r: &[u8]) -> bool
    requires { record_bytes ≤ length r.now }
    ensures { result ≡ unused_beside prompt_fields r.now }
{
    is_set(r, layout::GAP) | any_of_sixteen(r, layout::PROMPT_END) | any_from_thirty_two(r)
}

pub(crate) fn beside_row(r: &[u8]) -> bool
    requires { record_bytes ≤ length r.now }
    ensures { result ≡ unused_beside (row_fields r.now) r.now }
{
    any_of_four(r, layout::ROW_END) | any_of_four(r, layout::ROW_END + 4)
}

// The bytes after a third leg.
fn any_after_legs(r: &[u8]) -> bool
    requires { record_bytes ≤ length r.now }
    ensures { result ≡ any (not_zero r.now) (count_from 20 76) }
{
    any_of_four(r, layout::THREE_LEGS_END)
        | any_of_four(r, layout::THREE_LEGS_END + 4)
        | any_of_four(r, layout::THREE_LEGS_END + 8)
        | any_from_thirty_two(r)
}

pub(crate) fn beside_spread(r: &[u8]) -> bool
    requires { record_bytes ≤ length r.now }
    ensures { result ≡ unused_beside (spread_fields r.now) r.now }
{
    let late = any_after_legs(r);
    if byte_in(r, layout::LEG_COUNT) == 2 {
        is_set(r, layout::GAP) | any_of_four(r, layout::TWO_LEGS_END) | late
    } else {
        is_set(r, layout::GAP) | late
    }
}

pub(crate) fn beside_entry(r: &[u8]) -> bool
    requires { record_bytes ≤ length r.now }
    ensures { result ≡ unused_beside (entry_fields r.now) r.now }
{
    is_set(r, layout::ENTRY_END) | any_from_ten(r)
}

pub(crate) fn beside_rate(r: &[u8]) -> bool
    requires { record_bytes ≤ length r.now }
    ensures { result ≡ unused_beside rate_fields r.now }
{
    is_set(r, layout::EARLY_GAP)
        | is_set(r, layout::GAP)
        | is_set(r, layout::RATE_END)
        | any_from_ten(r)
}

pub(crate) fn beside_none(r: &[u8]) -> bool
    requires { record_bytes ≤ length r.now }
    ensures { result ≡ unused_beside [] r.now }
{
    set_between(r, layout::KIND + 1, RECORD_BYTES)
}
