// The fields of a record, by document 01's table. Unsigned fields come as they stand, signed ones as signed numbers.
ghost use Rattle.std.specs.Prelude.{◌≡◌, ◌+◌, ◌*◌, ◌≤◌, ◌<◌, length};
ghost use Rattle.record.specs.Layout as Layout;
ghost use Rattle.record.specs.Layout.{short_option_rate, unit_field, spread_rate_of, outright_rate_of, row_type, leg_count, rate_per_spread, leg_tier, leg_side, leg_ratio};
ghost use Rattle.record.specs.Layout.{second_contract, first_ratio, second_ratio, tenths_field, rate_currency, spot_rate};
ghost use Rattle.record.specs.Bytes.{record_bytes, number_in};

use crate::bytes::{byte_at, byte_in, i32_at, u16_at, u16_in, u32_at};
use crate::layout;

// A row has a loss for each.
pub const SCENARIOS: usize = 16;

pub fn kind(r: &[u8]) -> usize
    ensures { (result ≡ Layout.kind r.now) × (result < 256) }
{
    byte_at(r, layout::KIND)
}

pub fn contract(r: &[u8]) -> usize
    ensures { (result ≡ Layout.contract r.now) × (result < 256) }
{
    byte_at(r, layout::CONTRACT)
}

// Of a contract.
pub fn short_option_rate(r: &[u8]) -> usize
    ensures { (result ≡ short_option_rate r.now) × (result < 4294967296) }
{
    u32_at(r, layout::SHORT_OPTION_RATE)
}

// What bytes 8-9 of a contract hold.
pub(crate) fn unit_bytes(r: &[u8]) -> usize
    ensures { (result ≡ number_in unit_field r.now) × (result < 65536) }
{
    u16_at(r, layout::UNIT)
}

// The unit of a contract's amounts, in hundredths of the currency.
pub fn unit(r: &[u8]) -> usize
    ensures { (result ≡ Layout.unit r.now) × (result < 65536) }
{
    let held = unit_bytes(r);
    if held == 0 { 1 } else { held }
}

// Of a prompt; the day is also that of a row.
pub fn tier(r: &[u8]) -> usize
    ensures { (result ≡ Layout.tier r.now) × (result < 256) }
{
    byte_at(r, layout::TIER)
}

pub fn day(r: &[u8]) -> usize
    ensures { (result ≡ Layout.day r.now) × (result < 4294967296) }
{
    u32_at(r, layout::DAY)
}

pub fn spread_rate(r: &[u8]) -> usize
    ensures { (result ≡ spread_rate_of r.now) × (result < 4294967296) }
{
    u32_at(r, layout::SPREAD_RATE)
}

pub fn outright_rate(r: &[u8]) -> usize
    ensures { (result ≡ outright_rate_of r.now) × (result < 4294967296) }
{
    u32_at(r, layout::OUTRIGHT_RATE)
}

// Of a row.
pub fn row_type(r: &[u8]) -> usize
    ensures { (result ≡ row_type r.now) × (result < 256) }
{
    byte_at(r, layout::ROW_TYPE)
}

// 0 is the margin currency.
pub fn currency(r: &[u8]) -> usize
    ensures { (result ≡ Layout.currency r.now) × (result < 256) }
{
    byte_at(r, layout::CURRENCY)
}

pub fn strike(r: &[u8]) -> usize
    ensures { (result ≡ Layout.strike r.now) × (result < 4294967296) }
{
    u32_at(r, layout::STRIKE)
}

pub fn lots(r: &[u8]) -> i64
    ensures { result ≡ Layout.lots r.now }
{
    i32_at(r, layout::LOTS)
}

pub fn delta(r: &[u8]) -> i64
    ensures { result ≡ Layout.delta r.now }
{
    i32_at(r, layout::DELTA)
}

pub fn value(r: &[u8]) -> usize
    ensures { (result ≡ Layout.value r.now) × (result < 4294967296) }
{
    u32_at(r, layout::VALUE)
}

// The loss in a scenario, 1 to 16.
pub fn loss(r: &[u8], scenario: usize) -> i64
    ensures { result ≡ Layout.loss r.now scenario }
{
    let later = scenario.saturating_sub(1);
    if r.len() / 4 < later {
        0
    } else {
        i32_at(r, layout::FIRST_LOSS + 4 * later)
    }
}

// Of an interprompt spread; its legs are 0, 1 and 2.
pub fn leg_count(r: &[u8]) -> usize
    ensures { (result ≡ leg_count r.now) × (result < 256) }
{
    byte_at(r, layout::LEG_COUNT)
}

pub fn rate_per_spread(r: &[u8]) -> usize
    ensures { (result ≡ rate_per_spread r.now) × (result < 4294967296) }
{
    u32_at(r, layout::RATE_PER_SPREAD)
}

pub fn leg_tier(r: &[u8], leg: usize) -> usize
    ensures { (result ≡ leg_tier r.now leg) × (result < 256) }
{
    if r.len() / 4 < leg {
        0
    } else {
        byte_at(r, layout::LEG_TIER + 4 * leg)
    }
}

pub fn leg_side(r: &[u8], leg: usize) -> usize
    ensures { (result ≡ leg_side r.now leg) × (result < 256) }
{
    if r.len() / 4 < leg {
        0
    } else {
        byte_at(r, layout::LEG_SIDE + 4 * leg)
    }
}

pub fn leg_ratio(r: &[u8], leg: usize) -> usize
    ensures { (result ≡ leg_ratio r.now leg) × (result < 65536) }
{
    if r.len() / 4 < leg {
        0
    } else {
        u16_at(r, layout::LEG_RATIO + 4 * leg)
    }
}

// The same of a whole record, read without a test.
pub fn leg_count_in(r: &[u8]) -> usize
    requires { record_bytes ≤ length r.now }
    ensures { (result ≡ leg_count r.now) × (result < 256) }
{
    byte_in(r, layout::LEG_COUNT)
}

pub fn leg_tier_in(r: &[u8], leg: usize) -> usize
    requires { (leg ≤ 2) × (record_bytes ≤ length r.now) }
    ensures { (result ≡ leg_tier r.now leg) × (result < 256) }
{
    byte_in(r, layout::LEG_TIER + 4 * leg)
}

pub fn leg_side_in(r: &[u8], leg: usize) -> usize
    requires { (leg ≤ 2) × (record_bytes ≤ length r.now) }
    ensures { (result ≡ leg_side r.now leg) × (result < 256) }
{
    byte_in(r, layout::LEG_SIDE + 4 * leg)
}

// A leg's tier and side, which stand side by side, read as one number.
pub fn leg_place_in(r: &[u8], leg: usize) -> usize
    requires { (leg ≤ 2) × (record_bytes ≤ length r.now) }
    ensures { (result ≡ leg_tier r.now leg + 256 * leg_side r.now leg) × (result < 65536) }
{
    u16_in(r, layout::LEG_TIER + 4 * leg)
}

// Of an intercontract spread.
pub fn second_contract(r: &[u8]) -> usize
    ensures { (result ≡ second_contract r.now) × (result < 256) }
{
    byte_at(r, layout::SECOND_CONTRACT)
}

pub fn percent(r: &[u8]) -> usize
    ensures { (result ≡ Layout.percent r.now) × (result < 256) }
{
    byte_at(r, layout::PERCENT)
}

pub fn first_ratio(r: &[u8]) -> usize
    ensures { (result ≡ first_ratio r.now) × (result < 65536) }
{
    u16_at(r, layout::FIRST_RATIO)
}

pub fn second_ratio(r: &[u8]) -> usize
    ensures { (result ≡ second_ratio r.now) × (result < 65536) }
{
    u16_at(r, layout::SECOND_RATIO)
}

// 1 where the ratios of an intercontract spread are tenths.
pub(crate) fn tenths_byte(r: &[u8]) -> usize
    ensures { (result ≡ number_in tenths_field r.now) × (result < 256) }
{
    byte_at(r, layout::TENTHS)
}

pub fn tenths(r: &[u8]) -> bool
    ensures { result ≡ Layout.tenths r.now }
{
    tenths_byte(r) == 1
}

// Of a currency rate; the spot rate is in millionths, the adjustment in percent.
pub fn rate_currency(r: &[u8]) -> usize
    ensures { (result ≡ rate_currency r.now) × (result < 256) }
{
    byte_at(r, layout::RATE_CURRENCY)
}

pub fn spot_rate(r: &[u8]) -> usize
    ensures { (result ≡ spot_rate r.now) × (result < 4294967296) }
{
    u32_at(r, layout::SPOT_RATE)
}

pub fn adjustment(r: &[u8]) -> usize
    ensures { (result ≡ Layout.adjustment r.now) × (result < 256) }
{
    byte_at(r, layout::ADJUSTMENT)
}
