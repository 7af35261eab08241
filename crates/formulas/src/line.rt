// A contract's line of figures, before the intercontract table.
ghost use Rattle.std.specs.Prelude.{◌≡◌, map, ◌+◌, ◌^◌, ◌≤◌, ◌<◌, nat_abs, ◌+ℤ◌, length};
ghost use Rattle.exact.specs.Lists.{sum, sum_ℤ};
ghost use Rattle.account.specs.Records.{records};
ghost use Rattle.spread.specs.Accepted.{prompt_places};
ghost use Rattle.spread.specs.Steps.{steps};
ghost use Rattle.spread.specs.code.Lent.{book_in, spreads_from};
ghost use Rattle.formulas.specs.Bounds.{most_delta};
ghost use Rattle.formulas.specs.Deltas.{opens_with, interprompt};
ghost use Rattle.formulas.specs.code.Position.{position_in};
ghost use Rattle.formulas.specs.code.Promised.{BookOf, Charged, LineOf, PositionFit, contract_with};
ghost use Rattle.formulas.specs.code.Sums.{deltas_in, SpreadsWithin, PromptsWithin};

use crate::amount::{Amount, short_option_minimum};
use crate::charges::{interprompt_charge, prompt_charges};
use crate::risk::scanned;
use record::fields::{SCENARIOS, contract, short_option_rate, unit};
use spread::plain::plain;
use spread::{Delta, MOST_PROMPTS, MOST_SPREADS};

// What the figures say of a contract, but for its credit and its margin; and what its credit is worked out from.
#[derive(Clone, Copy)]
pub struct Line {
    pub contract: usize,
    pub unit: u64,
    pub active: usize,
    pub scanning: Amount,
    pub interprompt: Amount,
    pub prompt: Amount,
    pub minimum: Amount,
    pub twice_price: u64,
    pub net: Delta,
}

// The net delta of a contract: the sum over its prompts.
fn net_in(nets: &[i64; MOST_PROMPTS]) -> Delta
    requires { (length nets.now ≡ prompt_places) × (sum (map nat_abs nets.now) ≤ most_delta) }
    ensures { result.0 ≡ sum_ℤ nets.now }
{
    let mut net = 0;
    for more in nets {
        net += *more;
    }
    Delta(net)
}

// The same of net deltas by value.
pub fn contract_net(nets: [Delta; MOST_PROMPTS]) -> Delta
    requires { sum (map nat_abs (deltas_in nets)) ≤ most_delta }
    ensures { result.0 ≡ sum_ℤ (deltas_in nets) }
{
    net_in(&plain(nets))
}

// The line of a contract, from its own record, its prompts and interprompt spreads, what its rows come to, and its book.
pub fn line_in(
    own: &[u8],
    prompts: &[u8],
    spreads: &[u8],
    totals: &[i64; SCENARIOS],
    nets: &[i64; MOST_PROMPTS],
    shorts: u64,
    first: &[u64; MOST_SPREADS],
    second: &[u64; MOST_SPREADS],
    used: &[i64; MOST_PROMPTS],
    unused: &[i64; MOST_PROMPTS],
) -> Line
    requires { PositionFit own.now (records prompts.now) (records spreads.now) (position_in totals.now nets.now shorts)
        × BookOf (steps (map interprompt (records spreads.now))) (opens_with (records prompts.now) nets.now)
        (book_in first.now second.now used.now unused.now) }
    ensures { LineOf (contract_with own.now (records prompts.now) (records spreads.now)
        (position_in totals.now nets.now shorts)) result }
{
    let unit = unit(own) as u64;
    let risks = scanned(totals);
    Line {
        contract: contract(own),
        unit,
        active: risks.active,
        scanning: risks.scanning,
        interprompt: interprompt_charge(unit, spreads, first, second),
        prompt: prompt_charges(unit, prompts, used, unused),
        minimum: short_option_minimum(shorts, short_option_rate(own) as u64),
        twice_price: risks.twice_price,
        net: net_in(nets),
    }
}
