// The rates of an account as a small table by currency, and what a row comes to by it.
ghost use Rattle.std.specs.Prelude.{◌≡◌, cond, List, [], ◌∷◌, ◌≤◌, ltb, pos, nat_abs, ◌*ℤ◌, get_or};
ghost use Rattle.exact.specs.Lists.{any};
ghost use Rattle.exact.specs.Signed.{negative, Sized};
ghost use Rattle.record.specs.Bytes.{count_from};
ghost use Rattle.record.specs.Layout.{Record, currency, lots, value, loss, hundred_thousand, most_value, most_currency, scenario_count};
ghost use Rattle.record.specs.Within.{RowWithin, RateWithin};
ghost use Rattle.account.specs.Accepted.{Each};
ghost use Rattle.account.specs.Records.{records};
ghost use Rattle.account.specs.Products as Products;
ghost use Rattle.account.specs.Products.{converted_at, has_rate, conversion_beyond, most_conversion, most_factor, most_per_tick};
ghost use Rattle.account.specs.code.Rates.{RatesOf, HoldsRates};

use crate::stretches::{record_count, whole_at};
use exact::rounding::half_away;
use record::fields::{
    SCENARIOS, adjustment, currency, loss, lots, rate_currency, spot_rate, value,
};

// Currencies are numbered 0 to 7; 0 is the margin currency.
pub const CURRENCIES: usize = 8;

// A rate of 1: the spot rate is in millionths, the adjustment in percent.
const HUNDRED_MILLION: u64 = 100_000_000;

const MOST_CONVERSION: u64 = 100_000_000_000_000;

// Of each currency the rate raised by the adjustment and the rate lowered by it, in hundred-millionths; 0 where it has none.
#[derive(Clone, Copy)]
pub struct Rates {
    raised: [u64; CURRENCIES],
    lowered: [u64; CURRENCIES],
}

// What a loss and what a gain in a currency is multiplied by.
#[derive(Clone, Copy)]
pub struct Factors {
    pub raised: u64,
    pub lowered: u64,
}

fn raised(rate: &[u8]) -> u64
    ensures { result ≡ Products.raised rate.now }
{
    (spot_rate(rate) * (100 + adjustment(rate))) as u64
}

fn lowered(rate: &[u8]) -> u64
    ensures { result ≡ Products.lowered rate.now }
{
    (spot_rate(rate) * 100usize.saturating_sub(adjustment(rate))) as u64
}

// One rate more put in the table, before the others.
fn put_rate(t: &mut Rates, rate: &[u8])
    ensures { (rates : List Record) → RatesOf rates t.old → RatesOf (rate.now ∷ rates) t.new }
{
    let c = rate_currency(rate);
    if c < CURRENCIES {
        t.raised[c] = raised(rate);
        t.lowered[c] = lowered(rate);
    }
}

// The table of no rates.
pub fn no_rates() -> Rates
    ensures { RatesOf [] result }
{
    Rates {
        raised: [0; CURRENCIES],
        lowered: [0; CURRENCIES],
    }
}

// The table of an account's rates.
pub fn rates_of(rates: &[u8]) -> Rates
    ensures { RatesOf (records rates.now) result }
{
    let mut t = no_rates();
    for i in (0..record_count(rates)).rev() {
        put_rate(&mut t, whole_at(rates, i));
    }
    t
}

// What the table holds of a currency.
pub fn factors_of(t: Rates, c: usize) -> Factors
    requires { c ≤ most_currency }
    ensures { (result.raised ≡ get_or t.raised c 0) × (result.lowered ≡ get_or t.lowered c 0) }
{
    Factors {
        raised: t.raised[c],
        lowered: t.lowered[c],
    }
}

// Lots × value: what a row loses for each tick.
pub fn per_tick(row: &[u8]) -> i64
    requires { (nat_abs (lots row.now) ≤ hundred_thousand) × (value row.now ≤ most_value) }
    ensures { Sized most_per_tick (lots row.now *ℤ pos (value row.now)) result }
{
    lots(row) * value(row) as i64
}

fn factor(f: Factors, z: i64) -> u64
    ensures { result ≡ cond (negative z) f.lowered f.raised }
{
    if z < 0 { f.lowered } else { f.raised }
}

// A loss at the raised rate, a gain at the lowered one.
pub fn converted(f: Factors, z: i64) -> i64
    requires { (nat_abs z ≤ most_conversion) × ((f.raised ≤ most_factor) × (f.lowered ≤ most_factor)) }
    ensures { result ≡ converted_at f.raised f.lowered z }
{
    half_away(z, factor(f, z), HUNDRED_MILLION)
}

// Whether there is a rate for a row.
pub(crate) fn has_rate(t: Rates, row: &[u8]) -> bool
    requires { currency row.now ≤ most_currency }
    ensures { (rates : List Record) → RatesOf rates t → Each RateWithin rates → result ≡ has_rate rates row.now }
{
    let c = currency(row);
    c == 0 || t.raised[c] != 0
}

// Whether a row's conversion in a scenario is beyond the most.
fn beyond_in(f: Factors, each: i64, loss: i64) -> bool
    requires { (nat_abs each ≤ most_per_tick) × ((nat_abs loss ≤ hundred_thousand) × ((f.raised ≤ most_factor) × (f.lowered ≤ most_factor))) }
    ensures { result ≡ ltb most_conversion (nat_abs (converted_at f.raised f.lowered (each *ℤ loss))) }
{
    MOST_CONVERSION < converted(f, each * loss).unsigned_abs()
}

// Whether it is in any.
fn beyond_in_any(f: Factors, each: i64, row: &[u8]) -> bool
    requires { (nat_abs each ≤ most_per_tick) × (RowWithin row.now × ((f.raised ≤ most_factor) × (f.lowered ≤ most_factor))) }
    ensures { result ≡ any (λ s. ltb most_conversion (nat_abs (converted_at f.raised f.lowered (each *ℤ loss row.now s))))
        (count_from 1 scenario_count) }
{
    (0..SCENARIOS).any(|s| beyond_in(f, each, loss(row, s + 1)))
}

// Whether a row is converted to more than the most, in any scenario.
pub(crate) fn conversion_beyond(t: Rates, row: &[u8]) -> bool
    requires { RowWithin row.now × HoldsRates t }
    ensures { (rates : List Record) → RatesOf rates t → result ≡ conversion_beyond rates row.now }
{
    let c = currency(row);
    c != 0 && beyond_in_any(factors_of(t, c), per_tick(row), row)
}
