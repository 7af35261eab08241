// Amounts: the formulas of document 01 in which deltas and numbers of spreads become amounts. Nothing else crosses.
ghost use Rattle.std.specs.Prelude.{◌≡◌, ◌+◌, ◌*◌, ◌≤◌, nat_abs};
ghost use Rattle.record.specs.Within.{Between};
ghost use Rattle.record.specs.Layout.{most_percent, most_unit};
ghost use Rattle.formulas.specs.Bounds.{most_delta, most_rate, most_charge, most_risk, most_credit, most_lots};
ghost use Rattle.formulas.specs.Charges.{spread_charge, prompt_charge};
ghost use Rattle.formulas.specs.Credit as Credit;
ghost use Rattle.formulas.specs.Credit.{to_unit, unit_price_risk};
ghost use Rattle.formulas.specs.Margin as Margin;
ghost use Rattle.formulas.specs.Margin.{short_option_minimum};

use exact::rounding::{half_up, half_up_to};
use exact::signed::magnitude;
use spread::{Delta, Spreads};

// An amount, in hundredths of the currency. None is negative.
#[derive(Clone, Copy)]
pub struct Amount(pub u64);

// The charge of a spread for the numbers of its two steps, rounded to the contract's unit.
pub(crate) fn spread_charge(unit: u64, first: Spreads, second: Spreads, rate: u64) -> Amount
    requires { (first.0 ≤ most_delta) × (second.0 ≤ most_delta) × (rate ≤ most_rate) × (unit ≤ most_unit) }
    ensures { (result.0 ≡ spread_charge unit rate first.0 second.0) × (result.0 ≤ most_charge) }
{
    Amount(half_up_to((first.0 + second.0) * rate, 10000, unit))
}

// The charge of a prompt for what of it is used in spreads and what is not.
pub(crate) fn prompt_charge(
    unit: u64,
    used: Delta,
    unused: Delta,
    spread_rate: u64,
    outright_rate: u64,
) -> Amount
    requires { (nat_abs used.0 ≤ most_delta) × (nat_abs unused.0 ≤ most_delta) × (spread_rate ≤ most_rate) × (outright_rate ≤ most_rate)
        × (unit ≤ most_unit) }
    ensures { (result.0 ≡ prompt_charge unit spread_rate outright_rate used.0 unused.0) × (result.0 ≤ most_charge) }
{
    Amount(half_up_to(
        magnitude(used.0) * spread_rate + magnitude(unused.0) * outright_rate,
        10000,
        unit,
    ))
}

// Half hundredths of the currency over ten-thousandths of a lot, in ten-thousandths of the currency per lot.
const TO_UNIT: u64 = 500_000;

// Ten-thousandths of the currency per lot, times ten-thousandths of a lot, times a percent, that make a hundredth of the currency.
const FROM_UNIT: u64 = 100_000_000;

// A unit price risk, which outgrows 64 bits: TO_UNIT for each of its wholes, and a part.
#[derive(Clone, Copy)]
struct UnitPriceRisk {
    whole: u64,
    part: u64,
}

// The unit price risk, from twice the price risk and the size of the net delta.
fn unit_price_risk(twice_risk: u64, net: u64) -> UnitPriceRisk
    requires { net ≤ most_delta }
    ensures { (result.whole * to_unit + result.part ≡ unit_price_risk twice_risk net) × (result.whole * net ≤ twice_risk) × (result.part ≤ to_unit) }
{
    if net == 0 {
        return UnitPriceRisk { whole: 0, part: 0 };
    }
    let rest = twice_risk % net;
    UnitPriceRisk {
        whole: twice_risk / net,
        part: half_up(rest * TO_UNIT, net),
    }
}

// A contract's credit from one entry, from twice its price risk and the sizes of what the entry used and of its net delta.
// The wholes come to half hundredths, of which 200 times a percent are as many hundredths: so many for each unit.
pub(crate) fn credit(unit: u64, twice_risk: u64, used: u64, percent: u64, net: u64) -> Amount
    requires { (used ≤ net) × (net ≤ most_delta) × (percent ≤ most_percent) × (twice_risk ≤ 4 * most_risk) × Between 1 unit most_unit }
    ensures { (result.0 ≡ Credit.credit unit twice_risk used percent net) × (result.0 ≤ most_credit) }
{
    let risk = unit_price_risk(twice_risk, net);
    let halves = risk.whole * used;
    let each = 200 * unit;
    let parts = halves % each * percent * TO_UNIT + risk.part * (used * percent);
    let units = halves / each * percent + half_up(parts, FROM_UNIT * unit);
    Amount(units * unit)
}

// The short option minimum.
pub(crate) fn short_option_minimum(shorts: u64, rate: u64) -> Amount
    requires { (shorts ≤ most_lots) × (rate ≤ most_rate) }
    ensures { (result.0 ≡ short_option_minimum shorts rate) × (result.0 ≤ most_lots * most_rate) }
{
    Amount(shorts * rate)
}

// The risk that the minimum is compared with: not below 0.
pub fn risk(scanning: Amount, interprompt: Amount, prompt: Amount, credit: Amount) -> Amount
    requires { (scanning.0 ≤ most_risk) × (interprompt.0 ≤ most_risk) × (prompt.0 ≤ most_risk) }
    ensures { (result.0 ≡ Margin.risk scanning.0 interprompt.0 prompt.0 credit.0) × (result.0 ≤ 3 * most_risk) }
{
    let all = scanning.0 + interprompt.0 + prompt.0;
    Amount(all.saturating_sub(credit.0))
}

// The margin: the larger of the short option minimum and the risk.
pub fn margin(minimum: Amount, risk: Amount) -> Amount
    ensures { result.0 ≡ Margin.margin minimum.0 risk.0 }
{
    Amount(minimum.0.max(risk.0))
}
