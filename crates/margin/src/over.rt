// What an account's answers are made of: its rates, what the rows of its contracts come to, and what is asked about by a question.
ghost use Rattle.std.specs.Prelude.{◌≡◌, true, List, [], map, ◌+◌, ◌*◌, ◌≤◌, ◌<◌, get_or};
ghost use Rattle.account.specs.Parts.{contracts_of, prompts_of, rows_of, spreads_of, entries_of, rates_of};
ghost use Rattle.account.specs.Check.{most_contracts};
ghost use Rattle.account.specs.code.Rates.{RatesOf};
ghost use Rattle.account.specs.Records.{records};
ghost use Rattle.account.specs.code.Lent.{account_in};
ghost use Rattle.account.specs.code.Standing.{Stands};
ghost use Rattle.account.specs.Joined.{account_of};
ghost use Rattle.record.specs.Layout.{Record, most_contract};
ghost use Rattle.margin.specs.Books.{answered};
ghost use Rattle.margin.specs.code.Asked.{asked_by};
ghost use Rattle.formulas.specs.Contract.{contracts, parts_in, parts_of, as_tier, contract_steps, opens_of, table_steps};
ghost use Rattle.formulas.specs.code.Position.{with_nets};
ghost use Rattle.formulas.specs.code.Promised.{BookFit, contract_with};
ghost use Rattle.formulas.specs.Bounds.{figures_each};
ghost use Rattle.margin.specs.code.Beside.{unit_of, TiersOver, TiersKnown};
ghost use Rattle.margin.specs.code.Lined.{TierIs, TiersIn, PositionAt};
ghost use Rattle.margin.specs.Uses.{steps_for, opens_for};
ghost use Rattle.margin.specs.code.Asking.{Asks, NetsFit};

use crate::numbers::FIGURES_EACH;
use crate::uses::Asking;
use account::accounts::{own_part, prompts_part, rows_part, spreads_part};
use account::lent::{NOTES, contract_number, contract_total, part, part_total, whereabouts_of};
use account::parts::{CONTRACTS, ENTRIES, OWN, RATES};
use account::rates::{Rates, rates_of};
use formulas::rows::{Position, nets_of, position_of, rows_net};
use formulas::tables::{intercontract_table, interprompt_table, prompts_with};
use record::fields::unit;
use spread::{Delta, MOST_PROMPTS, Prompts};

// The question for the intercontract table; those below it are contracts.
pub const TABLE: usize = CONTRACTS;

// How many numbers the figures have.
pub(crate) fn figures_count(account: &[u16; NOTES]) -> usize
    requires { (account_in account.now).contracts ≤ most_contracts }
    ensures { result ≡ figures_each * (account_in account.now).contracts + 1 }
{
    FIGURES_EACH * contract_total(account) + 1
}

// The account's rates.
pub(crate) fn rates_over<'a>(morning: &'a [u8], noon: &'a [u8], account: &[u16; NOTES]) -> Rates
    requires { Stands morning.now noon.now (account_in account.now) }
    ensures { RatesOf (rates_of (account_of morning.now noon.now)) result }
{
    rates_of(part(morning, noon, account, RATES))
}

// What the rows of contract `c` come to at the account's rates and by the unit of the contract.
pub(crate) fn position_in<'a>(
    morning: &'a [u8],
    noon: &'a [u8],
    account: &[u16; NOTES],
    c: usize,
    rates: Rates,
) -> Position
    requires { Stands morning.now noon.now (account_in account.now)
        × ((c ≤ most_contract) × RatesOf (rates_of (account_of morning.now noon.now)) rates) }
    ensures { PositionAt (rates_of (account_of morning.now noon.now))
        (unit_of c (account_of morning.now noon.now)) (account_of morning.now noon.now) c result }
{
    let w = whereabouts_of(account, c);
    let own = own_part(morning, noon, w);
    let prompts = prompts_part(morning, noon, w);
    let rows = rows_part(morning, noon, w);
    position_of(rates, unit(own) as u64, prompts, rows)
}

// The net deltas alone of contract `c`, which no rate and no unit changes.
fn nets_at<'a>(
    morning: &'a [u8],
    noon: &'a [u8],
    account: &[u16; NOTES],
    c: usize,
) -> [Delta; MOST_PROMPTS]
    requires { Stands morning.now noon.now (account_in account.now) × (c ≤ most_contract) }
    ensures { PositionAt [] 1 (account_of morning.now noon.now) c
        (with_nets [] 1 (rows_of c (account_of morning.now noon.now)) result) }
{
    let w = whereabouts_of(account, c);
    let prompts = prompts_part(morning, noon, w);
    let rows = rows_part(morning, noon, w);
    nets_of(prompts, rows)
}

// A contract as a tier of the intercontract table.
#[derive(Clone, Copy)]
pub struct Tier {
    pub contract: u8,
    pub net: Delta,
}

// The i-th contract as a tier: its net delta, which is that of its rows, each being of one prompt's day.
fn tier_at<'a>(morning: &'a [u8], noon: &'a [u8], account: &[u16; NOTES], i: usize) -> Tier
    requires { Stands morning.now noon.now (account_in account.now) × (i < (account_in account.now).contracts) }
    ensures { TierIs
        (parts_in (account_of morning.now noon.now)
        (get_or (contracts_of (account_of morning.now noon.now)) i [])) result.contract result.net.0 }
{
    let c = contract_number(account, i);
    let w = whereabouts_of(account, c);
    let rows = rows_part(morning, noon, w);
    Tier {
        contract: c as u8,
        net: rows_net(rows),
    }
}

// The contracts as tiers, in file order.
fn tiers_over<'a>(morning: &'a [u8], noon: &'a [u8], account: &[u16; NOTES]) -> Prompts
    requires { Stands morning.now noon.now (account_in account.now) }
    ensures { TiersIn (account_of morning.now noon.now) result }
{
    let count = contract_total(account);
    let mut tiers = [0u8; MOST_PROMPTS];
    let mut nets = [Delta(0); MOST_PROMPTS];
    for i in 0..count {
        let one = tier_at(morning, noon, account, i);
        tiers[i] = one.contract;
        nets[i] = one.net;
    }
    Prompts {
        count,
        tier: tiers,
        net: nets,
    }
}

// A contract's prompts with their net deltas, and its interprompt spreads.
pub(crate) fn contract_asking(prompts: &[u8], spreads: &[u8], nets: [Delta; MOST_PROMPTS]) -> Asking
    requires { NetsFit (records prompts.now) (records spreads.now) nets }
    ensures { (p : Position) → p.nets ≡ nets
        → Asks (contract_steps (contract_with [] (records prompts.now) (records spreads.now) p))
        (opens_of (contract_with [] (records prompts.now) (records spreads.now) p)) result }
{
    Asking {
        prompts: prompts_with(prompts, nets),
        table: interprompt_table(spreads),
    }
}

// The same by the contract's number.
pub(crate) fn asking_with<'a>(
    morning: &'a [u8],
    noon: &'a [u8],
    account: &[u16; NOTES],
    c: usize,
    p: Position,
) -> Asking
    requires { Stands morning.now noon.now (account_in account.now)
        × ((c ≤ most_contract) × BookFit (prompts_of c (account_of morning.now noon.now)) (spreads_of c (account_of morning.now noon.now)) p) }
    ensures { Asks
        (contract_steps
        (contract_with [] (prompts_of c (account_of morning.now noon.now))
        (spreads_of c (account_of morning.now noon.now)) p))
        (opens_of
        (contract_with [] (prompts_of c (account_of morning.now noon.now))
        (spreads_of c (account_of morning.now noon.now)) p)) result }
{
    let w = whereabouts_of(account, c);
    let prompts = prompts_part(morning, noon, w);
    let spreads = spreads_part(morning, noon, w);
    contract_asking(prompts, spreads, p.nets)
}

// The same of a contract that stands in the files.
fn asking_of<'a>(morning: &'a [u8], noon: &'a [u8], account: &[u16; NOTES], c: usize) -> Asking
    requires { Stands morning.now noon.now (account_in account.now) × (c ≤ most_contract) }
    ensures { Asks (contract_steps (parts_of (account_of morning.now noon.now) c))
        (opens_of (parts_of (account_of morning.now noon.now) c)) result }
{
    let w = whereabouts_of(account, c);
    let prompts = prompts_part(morning, noon, w);
    let spreads = spreads_part(morning, noon, w);
    let nets = nets_at(morning, noon, account, c);
    contract_asking(prompts, spreads, nets)
}

// The contracts as tiers, and the intercontract spreads.
pub(crate) fn table_asking(entries: &[u8], tiers: Prompts) -> Asking
    requires { TiersKnown entries.now tiers }
    ensures { (whole : List Record) → TiersOver entries.now tiers whole
        → Asks (table_steps (entries_of whole)) (map as_tier (contracts whole)) result }
{
    Asking {
        prompts: tiers,
        table: intercontract_table(entries),
    }
}

// What a question asks about.
pub(crate) fn asking_over<'a>(
    morning: &'a [u8],
    noon: &'a [u8],
    account: &[u16; NOTES],
    question: usize,
) -> Asking
    requires { Stands morning.now noon.now (account_in account.now) × (answered (account_of morning.now noon.now) question ≡ true) }
    ensures { Asks (steps_for (account_of morning.now noon.now) question)
        (opens_for (account_of morning.now noon.now) question) result }
{
    if question == TABLE {
        let tiers = tiers_over(morning, noon, account);
        table_asking(part(morning, noon, account, ENTRIES), tiers)
    } else {
        asking_of(morning, noon, account, question)
    }
}

// Whether a question is a listed contract or 16.
pub(crate) fn is_asked(account: &[u16; NOTES], question: usize) -> bool
    ensures { result ≡ asked_by (account_in account.now).counts question }
{
    question == TABLE || (question < TABLE && part_total(account, OWN + question) != 0)
}
