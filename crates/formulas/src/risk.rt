// Scanning risk, active scenario and price risk: what a contract's sixteen totals say.
ghost use Rattle.std.specs.Prelude.{◌≡◌, ◌≤◌, ◌*◌, ◌-◌, nat_abs, ◌+ℤ◌};
ghost use Rattle.formulas.specs.Bounds.{most_risk};
ghost use Rattle.formulas.specs.Credit.{total_of, twice_price_risk_at};
ghost use Rattle.formulas.specs.code.Risks.{TotalsWithin, Scanned};

use crate::amount::Amount;
use crate::pairs::pair_of;
use exact::largest::largest;
use exact::signed::or_zero;
use record::fields::SCENARIOS;

// The total of a scenario 1 to 16; 0 for what is no scenario past them.
fn total_of(totals: &[i64], scenario: usize) -> i64
    ensures { result ≡ total_of totals.now scenario }
{
    totals.get(scenario.saturating_sub(1)).copied().unwrap_or(0)
}

// The totals of two scenarios together.
fn both(totals: &[i64; SCENARIOS], one: usize, other: usize) -> i64
    requires { TotalsWithin totals.now }
    ensures { (result ≡ total_of totals.now one +ℤ total_of totals.now other) × (nat_abs result ≤ 2 * most_risk) }
{
    total_of(totals, one) + total_of(totals, other)
}

// Twice the price risk, the halves kept, where the active scenario is known.
fn twice_price_risk(totals: &[i64; SCENARIOS], active: usize) -> u64
    requires { TotalsWithin totals.now }
    ensures { (result ≡ twice_price_risk_at totals.now active) × (result ≤ 4 * most_risk) }
{
    or_zero(both(totals, active, pair_of(active)) - both(totals, 1, 2))
}

// What the totals say: the active scenario, the scanning risk, and twice the price risk.
#[derive(Clone, Copy)]
pub struct Risks {
    pub active: usize,
    pub scanning: Amount,
    pub twice_price: u64,
}

pub(crate) fn scanned(totals: &[i64; SCENARIOS]) -> Risks
    requires { TotalsWithin totals.now }
    ensures { Scanned totals.now result.active result.scanning.0 result.twice_price }
{
    let worst = largest(*totals);
    Risks {
        active: worst.number,
        scanning: Amount(or_zero(worst.value)),
        twice_price: twice_price_risk(totals, worst.number),
    }
}
