// What the rows of each contract come to, worked out once for an account; and its contracts as tiers and what is asked about from there.
ghost use Rattle.std.specs.Prelude.{◌≡◌, true, List, map, ◌≤◌, ◌<◌, nat_abs};
ghost use Rattle.exact.specs.Lists.{sum, sum_ℤ};
ghost use Rattle.account.specs.code.Lent.{account_in};
ghost use Rattle.account.specs.code.Standing.{Stands};
ghost use Rattle.account.specs.Joined.{account_of};
ghost use Rattle.record.specs.Layout.{Record, most_contract};
ghost use Rattle.margin.specs.Books.{answered};
ghost use Rattle.formulas.specs.Bounds.{most_delta};
ghost use Rattle.margin.specs.code.Lined.{TiersIn};
ghost use Rattle.margin.specs.code.Positions.{PositionsOf, PositionsTell, Known};
ghost use Rattle.formulas.specs.code.Sums.{deltas_in};
ghost use Rattle.margin.specs.Uses.{steps_for, opens_for};
ghost use Rattle.margin.specs.code.Asking.{Asks};

use crate::over::{TABLE, Tier, asking_with, position_in, rates_over, table_asking};
use crate::uses::Asking;
use account::accounts::Account;
use account::lent::{NOTES, contract_number, contract_total, lend, part, record_total};
use account::parts::{CONTRACTS, ENTRIES};
use formulas::line::contract_net;
use formulas::rows::{Position, flat};
use spread::{Delta, MOST_PROMPTS, Prompts};

// How many records an account has, and what the rows of each contract number come to; nothing where it is not listed.
#[derive(Clone, Copy)]
pub struct Positions {
    pub records: usize,
    pub at: [Position; CONTRACTS],
}

// The positions of an account, each row walked once.
fn positions_lent<'a>(morning: &'a [u8], noon: &'a [u8], account: &[u16; NOTES]) -> Positions
    requires { Stands morning.now noon.now (account_in account.now) }
    ensures { PositionsOf (account_of morning.now noon.now) result }
{
    let rates = rates_over(morning, noon, account);
    let mut at = [flat(); CONTRACTS];
    for i in 0..contract_total(account) {
        let c = contract_number(account, i);
        at[c] = position_in(morning, noon, account, c, rates);
    }
    Positions {
        records: record_total(account),
        at,
    }
}

// The same of an account by value, which is lent.
pub fn positions_over<'a>(morning: &'a [u8], noon: &'a [u8], account: Account) -> Positions
    requires { Stands morning.now noon.now account }
    ensures { PositionsOf (account_of morning.now noon.now) result }
{
    let mut notes = [0u16; NOTES];
    lend(account, &mut notes);
    positions_lent(morning, noon, &notes)
}

// A contract as a tier, by what its rows come to.
fn tier_with(c: usize, p: Position) -> Tier
    requires { (c ≤ most_contract) × (sum (map nat_abs (deltas_in p.nets)) ≤ most_delta) }
    ensures { (result.contract ≡ c) × (result.net.0 ≡ sum_ℤ (deltas_in p.nets)) }
{
    Tier {
        contract: c as u8,
        net: contract_net(p.nets),
    }
}

// The contracts as tiers, in file order.
pub(crate) fn tiers_from<'a>(
    morning: &'a [u8],
    noon: &'a [u8],
    account: &[u16; NOTES],
    positions: Positions,
) -> Prompts
    requires { Stands morning.now noon.now (account_in account.now) × Known (account_of morning.now noon.now) positions }
    ensures { (whole : List Record) → PositionsTell (account_of morning.now noon.now) positions whole → TiersIn whole result }
{
    let count = contract_total(account);
    let mut tiers = [0u8; MOST_PROMPTS];
    let mut nets = [Delta(0); MOST_PROMPTS];
    for i in 0..count {
        let c = contract_number(account, i);
        let one = tier_with(c, positions.at[c]);
        tiers[i] = one.contract;
        nets[i] = one.net;
    }
    Prompts {
        count,
        tier: tiers,
        net: nets,
    }
}

// What a question asks about.
pub(crate) fn asking_from<'a>(
    morning: &'a [u8],
    noon: &'a [u8],
    account: &[u16; NOTES],
    positions: Positions,
    question: usize,
) -> Asking
    requires { Stands morning.now noon.now (account_in account.now)
        × (Known (account_of morning.now noon.now) positions × (answered (account_of morning.now noon.now) question ≡ true)) }
    ensures { (whole : List Record) → PositionsTell (account_of morning.now noon.now) positions whole
        → Asks (steps_for whole question) (opens_for whole question) result }
{
    if question == TABLE {
        let tiers = tiers_from(morning, noon, account, positions);
        table_asking(part(morning, noon, account, ENTRIES), tiers)
    } else {
        asking_with(morning, noon, account, question, positions.at[question])
    }
}
