// The refusals that a record gets by itself: 3, 5 and 6; and whole records that get none of them.
ghost use Rattle.std.specs.Prelude.{◌≡◌, ◌&&◌, ◌||◌, eqb, ℕ, ◌≤◌, ◌<◌, length};
ghost use Rattle.record.specs.Bytes.{record_bytes, byte_at};
ghost use Rattle.record.specs.Layout.{contract, currency};
ghost use Rattle.record.specs.Ranges.{unknown_kind, unused_byte, field_outside, of_kind_and_contract, sound_record};

use crate::bytes::{RECORD_BYTES, byte_in};
use crate::fields::kind;
use crate::{layout, ranges, unused};

// 3: a kind that is not 1 to 6.
pub fn unknown_kind(r: &[u8]) -> bool
    ensures { result ≡ unknown_kind r.now }
{
    !matches!(kind(r), 1..=6)
}

// The bytes of a shorter record, and zeros.
fn padded(r: &[u8]) -> [u8; RECORD_BYTES]
    requires { length r.now < record_bytes }
    ensures { (length result ≡ record_bytes) × ((o : ℕ) → byte_at result o ≡ byte_at r.now o) }
{
    let mut whole = [0u8; RECORD_BYTES];
    whole[..r.len()].copy_from_slice(r);
    whole
}

fn whole_unused_byte(r: &[u8]) -> bool
    requires { record_bytes ≤ length r.now }
    ensures { result ≡ unused_byte r.now }
{
    match byte_in(r, layout::KIND) {
        1 => unused::beside_contract(r),
        2 => unused::beside_prompt(r),
        3 => unused::beside_row(r),
        4 => unused::beside_spread(r),
        5 => unused::beside_entry(r),
        6 => unused::beside_rate(r),
        _ => unused::beside_none(r),
    }
}

// 5: an unused byte is not zero. Of an unknown kind every byte is unused.
pub fn unused_byte(r: &[u8]) -> bool
    ensures { result ≡ unused_byte r.now }
{
    if RECORD_BYTES <= r.len() {
        whole_unused_byte(r)
    } else {
        whole_unused_byte(&padded(r))
    }
}

fn whole_field_outside(r: &[u8]) -> bool
    requires { record_bytes ≤ length r.now }
    ensures { result ≡ field_outside r.now }
{
    match byte_in(r, layout::KIND) {
        1 => ranges::contract_outside(r),
        2 => ranges::prompt_outside(r),
        3 => ranges::row_head_outside(r, true) | ranges::losses_beyond(r),
        4 => ranges::spread_outside(r),
        5 => ranges::entry_outside(r),
        6 => ranges::rate_outside(r),
        _ => false,
    }
}

// 6: a field outside its range.
pub fn field_outside(r: &[u8]) -> bool
    ensures { result ≡ field_outside r.now }
{
    if RECORD_BYTES <= r.len() {
        whole_field_outside(r)
    } else {
        whole_field_outside(&padded(r))
    }
}

// Whether a whole record is of a kind and a contract.
fn is_of(r: &[u8], kind: usize, c: usize) -> bool
    requires { record_bytes ≤ length r.now }
    ensures { result ≡ of_kind_and_contract kind c r.now }
{
    (byte_in(r, layout::KIND) == kind) & (byte_in(r, layout::CONTRACT) == c)
}

// A contract's own record, whole and with neither 5 nor 6. Here and below, but for an interprompt spread, there is no way out before the end, so that
// much is tested at once.
pub fn sound_contract(r: &[u8]) -> bool
    ensures { result ≡ sound_record 1 (contract r.now) r.now }
{
    if r.len() < RECORD_BYTES {
        return false;
    }
    is_of(r, 1, byte_in(r, layout::CONTRACT))
        & !(unused::beside_contract(r) | ranges::contract_outside(r))
}

// A prompt of contract `c`.
pub fn sound_prompt(r: &[u8], c: usize) -> bool
    ensures { result ≡ sound_record 2 c r.now }
{
    if r.len() < RECORD_BYTES {
        return false;
    }
    is_of(r, 2, c) & !(unused::beside_prompt(r) | ranges::prompt_outside(r))
}

// A row, in another currency than the margin's only where `other` lets it be.
pub fn sound_row(r: &[u8], c: usize, other: bool) -> bool
    ensures { result ≡ sound_record 3 c r.now && (other || eqb (currency r.now) 0) }
{
    if r.len() < RECORD_BYTES {
        return false;
    }
    is_of(r, 3, c)
        & !(unused::beside_row(r) | ranges::row_head_outside(r, other) | ranges::losses_beyond(r))
}

// The tests end as soon as one fails: the record after a run of spreads is of another contract or kind.
pub fn sound_spread(r: &[u8], c: usize) -> bool
    ensures { result ≡ sound_record 4 c r.now }
{
    RECORD_BYTES <= r.len()
        && is_of(r, 4, c)
        && !unused::beside_spread(r)
        && !ranges::spread_outside(r)
}

// An intercontract spread, of any contract.
pub fn sound_entry(r: &[u8]) -> bool
    ensures { result ≡ sound_record 5 (contract r.now) r.now }
{
    if r.len() < RECORD_BYTES {
        return false;
    }
    is_of(r, 5, byte_in(r, layout::CONTRACT))
        & !(unused::beside_entry(r) | ranges::entry_outside(r))
}
