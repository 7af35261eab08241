// What each field of a whole record may hold.
ghost use Rattle.std.specs.Prelude.{◌≡◌, cond, not, ◌||◌, eqb, map, ◌<◌, ◌≤◌, pos, neg_ℤ, length};
ghost use Rattle.record.specs.Bytes.{plain, signed, count_from};
ghost use Rattle.record.specs.Layout.{record_bytes, contract_range, day_range, tier_range, rate_range, ratio_range, entry_ratio_range, hundred_thousands};
ghost use Rattle.record.specs.Layout.{contract_fields, prompt_fields, row_head, spread_fields, entry_fields, rate_fields, strike_field, delta_field, forward};
ghost use Rattle.record.specs.Layout.{put, loss_field, leg_fields, third_leg, scenario_count, currency, currency_field, most_currency};
ghost use Rattle.record.specs.Ranges as Ranges;
ghost use Rattle.record.specs.Ranges.{outside, outside_among};

use crate::bytes::{byte_in, u16_in, u32_in};
use crate::fields::SCENARIOS;
use crate::layout;

fn beyond(x: usize, low: usize, high: usize) -> bool
    ensures { result ≡ Ranges.beyond (plain low high) x }
{
    (x < low) | (high < x)
}

// Of 32 bits in two's complement: below -low or above high.
fn signed_beyond(x: usize, low: usize, high: usize) -> bool
    requires { (x < 4294967296) × ((low ≤ 2147483648) × (high < 2147483648)) }
    ensures { result ≡ Ranges.beyond (signed (neg_ℤ (pos low)) (pos high)) x }
{
    (high < x) & (x < 4294967296 - low)
}

fn contract_beyond(x: usize) -> bool
    ensures { result ≡ Ranges.beyond contract_range x }
{
    beyond(x, 0, 15)
}

fn day_beyond(x: usize) -> bool
    ensures { result ≡ Ranges.beyond day_range x }
{
    beyond(x, 1, 99999999)
}

fn tier_beyond(x: usize) -> bool
    ensures { result ≡ Ranges.beyond tier_range x }
{
    beyond(x, 1, 8)
}

fn rate_beyond(x: usize) -> bool
    ensures { result ≡ Ranges.beyond rate_range x }
{
    beyond(x, 0, 10000000)
}

fn ratio_beyond(x: usize) -> bool
    ensures { result ≡ Ranges.beyond ratio_range x }
{
    beyond(x, 1, 100)
}

// The hundred thousands of lots and losses, either way.
fn too_many(x: usize) -> bool
    requires { x < 4294967296 }
    ensures { result ≡ Ranges.beyond hundred_thousands x }
{
    signed_beyond(x, 100000, 100000)
}

pub(crate) fn contract_outside(r: &[u8]) -> bool
    requires { record_bytes ≤ length r.now }
    ensures { result ≡ outside_among contract_fields r.now }
{
    contract_beyond(byte_in(r, layout::CONTRACT))
        | rate_beyond(u32_in(r, layout::SHORT_OPTION_RATE))
        | beyond(u16_in(r, layout::UNIT), 0, 1000)
}

pub(crate) fn prompt_outside(r: &[u8]) -> bool
    requires { record_bytes ≤ length r.now }
    ensures { result ≡ outside_among prompt_fields r.now }
{
    contract_beyond(byte_in(r, layout::CONTRACT))
        | tier_beyond(byte_in(r, layout::TIER))
        | day_beyond(u32_in(r, layout::DAY))
        | rate_beyond(u32_in(r, layout::SPREAD_RATE))
        | rate_beyond(u32_in(r, layout::OUTRIGHT_RATE))
}

// A strike of 0 for a forward, any other otherwise.
fn strike_beyond(r: &[u8]) -> bool
    requires { record_bytes ≤ length r.now }
    ensures { result ≡ outside r.now (strike_field (forward r.now)) }
{
    if byte_in(r, layout::ROW_TYPE) == 0 {
        beyond(u32_in(r, layout::STRIKE), 0, 0)
    } else {
        beyond(u32_in(r, layout::STRIKE), 1, 4294967295)
    }
}

// A delta not above 0 for a put, not below it otherwise.
fn delta_beyond(r: &[u8]) -> bool
    requires { record_bytes ≤ length r.now }
    ensures { result ≡ outside r.now (delta_field (put r.now)) }
{
    if byte_in(r, layout::ROW_TYPE) == 2 {
        signed_beyond(u32_in(r, layout::DELTA), 10000, 0)
    } else {
        signed_beyond(u32_in(r, layout::DELTA), 0, 10000)
    }
}

// The loop has no way out, so that many losses are tested at once.
pub(crate) fn losses_beyond(r: &[u8]) -> bool
    requires { record_bytes ≤ length r.now }
    ensures { result ≡ outside_among (map loss_field (count_from 1 scenario_count)) r.now }
{
    let mut outside = false;
    for k in 0..SCENARIOS {
        outside |= too_many(u32_in(r, layout::FIRST_LOSS + 4 * k));
    }
    outside
}

// The highest currency that a row may be in, where it may be in another than the margin's or not.
fn most_currency(other: bool) -> usize
    ensures { result ≡ cond other most_currency 0 }
{
    if other { 7 } else { 0 }
}

fn currency_beyond(r: &[u8], other: bool) -> bool
    requires { record_bytes ≤ length r.now }
    ensures { result ≡ outside r.now currency_field || not (other || eqb (currency r.now) 0) }
{
    beyond(byte_in(r, layout::CURRENCY), 0, most_currency(other))
}

// The fields of a row before its losses, its currency being another than the margin's only where `other` lets it be.
pub(crate) fn row_head_outside(r: &[u8], other: bool) -> bool
    requires { record_bytes ≤ length r.now }
    ensures { result ≡ outside_among (row_head r.now) r.now || not (other || eqb (currency r.now) 0) }
{
    contract_beyond(byte_in(r, layout::CONTRACT))
        | beyond(byte_in(r, layout::ROW_TYPE), 0, 2)
        | currency_beyond(r, other)
        | day_beyond(u32_in(r, layout::DAY))
        | strike_beyond(r)
        | too_many(u32_in(r, layout::LOTS))
        | delta_beyond(r)
        | beyond(u32_in(r, layout::VALUE), 1, 10000)
}

fn leg_beyond(r: &[u8], leg: usize) -> bool
    requires { (leg ≤ 2) × (record_bytes ≤ length r.now) }
    ensures { result ≡ outside_among (leg_fields leg) r.now }
{
    tier_beyond(byte_in(r, layout::LEG_TIER + 4 * leg))
        | beyond(byte_in(r, layout::LEG_SIDE + 4 * leg), 1, 2)
        | ratio_beyond(u16_in(r, layout::LEG_RATIO + 4 * leg))
}

// The third leg, where there is one.
fn third_leg_beyond(r: &[u8]) -> bool
    requires { record_bytes ≤ length r.now }
    ensures { result ≡ outside_among (third_leg r.now) r.now }
{
    if byte_in(r, layout::LEG_COUNT) == 2 {
        false
    } else {
        leg_beyond(r, 2)
    }
}

pub(crate) fn spread_outside(r: &[u8]) -> bool
    requires { record_bytes ≤ length r.now }
    ensures { result ≡ outside_among (spread_fields r.now) r.now }
{
    contract_beyond(byte_in(r, layout::CONTRACT))
        | beyond(byte_in(r, layout::LEG_COUNT), 2, 3)
        | rate_beyond(u32_in(r, layout::RATE_PER_SPREAD))
        | leg_beyond(r, 0)
        | leg_beyond(r, 1)
        | third_leg_beyond(r)
}

// A ratio of an intercontract spread.
fn entry_ratio_beyond(x: usize, in_tenths: bool) -> bool
    ensures { result ≡ Ranges.beyond (entry_ratio_range in_tenths) x }
{
    if in_tenths {
        beyond(x, 1, 1000)
    } else {
        ratio_beyond(x)
    }
}

pub(crate) fn entry_outside(r: &[u8]) -> bool
    requires { record_bytes ≤ length r.now }
    ensures { result ≡ outside_among (entry_fields r.now) r.now }
{
    let in_tenths = byte_in(r, layout::TENTHS) == 1;
    contract_beyond(byte_in(r, layout::CONTRACT))
        | contract_beyond(byte_in(r, layout::SECOND_CONTRACT))
        | beyond(byte_in(r, layout::PERCENT), 0, 100)
        | entry_ratio_beyond(u16_in(r, layout::FIRST_RATIO), in_tenths)
        | entry_ratio_beyond(u16_in(r, layout::SECOND_RATIO), in_tenths)
        | beyond(byte_in(r, layout::TENTHS), 0, 1)
}

pub(crate) fn rate_outside(r: &[u8]) -> bool
    requires { record_bytes ≤ length r.now }
    ensures { result ≡ outside_among rate_fields r.now }
{
    beyond(byte_in(r, layout::RATE_CURRENCY), 1, 7)
        | beyond(u32_in(r, layout::SPOT_RATE), 1, 100000000)
        | beyond(byte_in(r, layout::ADJUSTMENT), 0, 50)
}
