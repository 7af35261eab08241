// A contract's prompts and interprompt spreads, and the intercontract spreads, as the spread steps take them.
ghost use Rattle.std.specs.Prelude.{◌≡◌, map, ◌≤◌, length, take};
ghost use Rattle.record.specs.Layout as Layout;
ghost use Rattle.account.specs.Check.{most_prompts, most_spreads, most_entries};
ghost use Rattle.account.specs.Records.{records, record_count};
ghost use Rattle.spread.specs.Accepted.{prompt_places};
ghost use Rattle.formulas.specs.Deltas as Deltas;
ghost use Rattle.formulas.specs.Deltas.{leg_of};
ghost use Rattle.formulas.specs.code.Tables.{TiersOf, TableOf};

use record::bytes::RECORD_BYTES;
use record::fields::{
    contract, first_ratio, leg_count, leg_ratio, leg_side, leg_tier, second_contract, second_ratio,
    tenths, tier,
};
use spread::{Delta, Leg, MOST_PROMPTS, MOST_SPREADS, Prompts, Spread, Table};

fn leg_of(s: &[u8], i: usize) -> Leg
    ensures { result ≡ leg_of s.now i }
{
    Leg {
        tier: leg_tier(s, i) as u8,
        side: leg_side(s, i) as u8,
        ratio: leg_ratio(s, i) as u16,
    }
}

fn interprompt(s: &[u8]) -> Spread
    ensures { result ≡ Deltas.interprompt s.now }
{
    Spread {
        legs: leg_count(s) as u8,
        leg: [leg_of(s, 0), leg_of(s, 1), leg_of(s, 2)],
        tenths: false,
    }
}

const NO_LEG: Leg = Leg {
    tier: 0,
    side: 0,
    ratio: 0,
};

// The first contract is A.
fn intercontract(e: &[u8]) -> Spread
    ensures { result ≡ Deltas.intercontract e.now }
{
    let a = Leg {
        tier: contract(e) as u8,
        side: 1,
        ratio: first_ratio(e) as u16,
    };
    let b = Leg {
        tier: second_contract(e) as u8,
        side: 2,
        ratio: second_ratio(e) as u16,
    };
    Spread {
        legs: 2,
        leg: [a, b, NO_LEG],
        tenths: tenths(e),
    }
}

fn no_spread() -> Spread {
    Spread {
        legs: 0,
        leg: [NO_LEG, NO_LEG, NO_LEG],
        tenths: false,
    }
}

// The table of a contract's interprompt spreads, in file order. It and the next are two: one that takes what reads a record copies the table once more.
pub fn interprompt_table(spreads: &[u8]) -> Table
    requires { record_count spreads.now ≤ most_spreads }
    ensures { TableOf Deltas.interprompt spreads.now result }
{
    let mut table = Table {
        count: spreads.len() / RECORD_BYTES,
        spread: [no_spread(); MOST_SPREADS],
    };
    for (i, r) in spreads.chunks_exact(RECORD_BYTES).enumerate() {
        table.spread[i] = interprompt(r);
    }
    table
}

// The table of intercontract spreads, in file order.
pub fn intercontract_table(entries: &[u8]) -> Table
    requires { record_count entries.now ≤ most_entries }
    ensures { TableOf Deltas.intercontract entries.now result }
{
    let mut table = Table {
        count: entries.len() / RECORD_BYTES,
        spread: [no_spread(); MOST_SPREADS],
    };
    for (i, r) in entries.chunks_exact(RECORD_BYTES).enumerate() {
        table.spread[i] = intercontract(r);
    }
    table
}

// The tiers of a contract's prompts, in lent places.
pub(crate) fn put_tiers(tiers: &mut [u8; MOST_PROMPTS], prompts: &[u8])
    requires { (length tiers.old ≡ prompt_places) × (record_count prompts.now ≤ most_prompts) }
    ensures { take (record_count prompts.now) tiers.new ≡ map Layout.tier (records prompts.now) }
{
    for (i, p) in prompts.chunks_exact(RECORD_BYTES).enumerate() {
        tiers[i] = tier(p) as u8;
    }
}

// A contract's prompts with their tiers and net deltas.
pub fn prompts_with(prompts: &[u8], nets: [Delta; MOST_PROMPTS]) -> Prompts
    requires { record_count prompts.now ≤ most_prompts }
    ensures { TiersOf prompts.now nets result }
{
    let mut tiers = [0u8; MOST_PROMPTS];
    put_tiers(&mut tiers, prompts);
    Prompts {
        count: prompts.len() / RECORD_BYTES,
        tier: tiers,
        net: nets,
    }
}
