// Charges and credits added up over a contract's spreads, its prompts, and the entries of the intercontract table.
ghost use Rattle.std.specs.Prelude.{◌≡◌, ◌&&◌, eqb, ◌*◌, ◌≤◌, ◌<◌, length};
ghost use Rattle.account.specs.Records.{records};
ghost use Rattle.formulas.specs.Bounds.{most_formed, most_charge, most_credit};
ghost use Rattle.formulas.specs.Charges.{spread_charge, interprompt_charge, prompt_charge, prompt_charges};
ghost use Rattle.formulas.specs.Credit.{credit, both_take, entry_use};
ghost use Rattle.formulas.specs.code.Sums.{interleaved, SpreadRoom, SpreadsWithin, PromptRoom, PromptsWithin, CreditRoom};
ghost use Rattle.formulas.specs.code.Table.{earner_at, earns_from, EarnerRoom, EntryRoom, EarnedRoom, WithEntry, WalkRoom, EarnedBy};
ghost use Rattle.account.specs.Check.{most_contracts, most_prompts, most_spreads};
ghost use Rattle.record.specs.Layout.{rate_per_spread, spread_rate_of, outright_rate_of, percent};
ghost use Rattle.spread.specs.Accepted.{spread_places};
ghost use Rattle.spread.specs.Steps.{use_of};
ghost use Rattle.spread.specs.code.Lent.{spreads_from};

use crate::amount::{Amount, credit, prompt_charge, spread_charge};
use account::parts::CONTRACTS;
use exact::rounding::half_up;
use record::bytes::RECORD_BYTES;
use record::fields::{
    contract, first_ratio, outright_rate, percent, rate_per_spread, second_contract, second_ratio,
    spread_rate, tenths,
};
use spread::{Delta, MOST_PROMPTS, MOST_SPREADS, Spreads};

fn charge_of_spread(unit: u64, s: &[u8], first: Spreads, second: Spreads) -> Amount
    requires { SpreadRoom unit s.now first.0 second.0 }
    ensures { (result.0 ≡ spread_charge unit (rate_per_spread s.now) first.0 second.0) × (result.0 ≤ most_charge) }
{
    spread_charge(unit, first, second, rate_per_spread(s) as u64)
}

// The interprompt charge: each spread's charge for the numbers of its two steps.
pub(crate) fn interprompt_charge(
    unit: u64,
    spreads: &[u8],
    first: &[u64; MOST_SPREADS],
    second: &[u64; MOST_SPREADS],
) -> Amount
    requires { SpreadsWithin unit (records spreads.now) (spreads_from first.now) (spreads_from second.now) }
    ensures { (result.0 ≡ interprompt_charge unit (records spreads.now)
        (interleaved (spreads_from first.now) (spreads_from second.now))) × (result.0 ≤ most_spreads * most_charge) }
{
    let mut sum = 0;
    for (i, s) in spreads.chunks_exact(RECORD_BYTES).enumerate() {
        let charge = charge_of_spread(unit, s, Spreads(first[i]), Spreads(second[i]));
        sum += charge.0;
    }
    Amount(sum)
}

fn charge_of_prompt(unit: u64, p: &[u8], used: Delta, unused: Delta) -> Amount
    requires { PromptRoom unit p.now used.0 unused.0 }
    ensures { (result.0 ≡ prompt_charge unit (spread_rate_of p.now) (outright_rate_of p.now) used.0 unused.0) × (result.0 ≤ most_charge) }
{
    prompt_charge(
        unit,
        used,
        unused,
        spread_rate(p) as u64,
        outright_rate(p) as u64,
    )
}

// The prompt date charges: each prompt's charge for what of it is used and what is not.
pub(crate) fn prompt_charges(
    unit: u64,
    prompts: &[u8],
    used: &[i64; MOST_PROMPTS],
    unused: &[i64; MOST_PROMPTS],
) -> Amount
    requires { PromptsWithin unit (records prompts.now) used.now unused.now }
    ensures { (result.0 ≡ prompt_charges unit (records prompts.now) used.now unused.now)
        × (result.0 ≤ most_prompts * most_charge) }
{
    let mut sum = 0;
    for (i, p) in prompts.chunks_exact(RECORD_BYTES).enumerate() {
        let charge = charge_of_prompt(unit, p, Delta(used[i]), Delta(unused[i]));
        sum += charge.0;
    }
    Amount(sum)
}

// What a step takes of a contract.
fn step_use(in_tenths: bool, ratio: usize, number: Spreads) -> u64
    requires { (ratio < 65536) × (number.0 ≤ most_formed) }
    ensures { (result ≡ use_of in_tenths number.0 ratio) × (result ≤ 65536 * most_formed) }
{
    let product = number.0 * (ratio as u64);
    if in_tenths {
        half_up(product, 10)
    } else {
        product
    }
}

fn both_take(in_tenths: bool, ratio: usize, first: Spreads, second: Spreads) -> u64
    requires { (ratio < 65536) × ((first.0 ≤ most_formed) × (second.0 ≤ most_formed)) }
    ensures { result ≡ both_take in_tenths ratio first.0 second.0 }
{
    step_use(in_tenths, ratio, first) + step_use(in_tenths, ratio, second)
}

// What an entry uses of a contract.
fn entry_use(c: usize, e: &[u8], first: Spreads, second: Spreads) -> u64
    requires { (first.0 ≤ most_formed) × (second.0 ≤ most_formed) }
    ensures { result ≡ entry_use c e.now first.0 second.0 }
{
    if c == contract(e) {
        both_take(tenths(e), first_ratio(e), first, second)
    } else if c == second_contract(e) {
        both_take(tenths(e), second_ratio(e), first, second)
    } else {
        0
    }
}

// A contract as the intercontract table sees it: its unit, its number, twice its price risk, and the size of its net delta.
#[derive(Clone, Copy)]
pub struct Earner {
    pub unit: u64,
    pub contract: usize,
    pub twice_price: u64,
    pub net: u64,
}

// Nothing is earned where nothing is used.
fn credit_from(e: &[u8], earner: Earner, first: Spreads, second: Spreads) -> Amount
    requires { CreditRoom earner.unit earner.contract earner.twice_price earner.net e.now first.0 second.0 }
    ensures { (result.0 ≡ credit earner.unit earner.twice_price (entry_use earner.contract e.now first.0 second.0)
        (percent e.now) earner.net) × (result.0 ≤ most_credit) }
{
    let used = entry_use(earner.contract, e, first, second);
    if used == 0 {
        return Amount(0);
    }
    credit(
        earner.unit,
        earner.twice_price,
        used,
        percent(e) as u64,
        earner.net,
    )
}

// What a contract earns from an entry, by its number. Without a net delta it earns nothing.
fn credit_at(
    c: usize,
    units: &[u64; CONTRACTS],
    prices: &[u64; CONTRACTS],
    nets: &[u64; CONTRACTS],
    e: &[u8],
    first: Spreads,
    second: Spreads,
) -> Amount
    requires { (c < most_contracts) × EarnerRoom (earner_at units.now prices.now nets.now c) e.now first.0 second.0 }
    ensures { (result.0 ≡ earns_from (earner_at units.now prices.now nets.now c) e.now first.0 second.0)
        × (result.0 ≤ most_credit) }
{
    let net = nets[c];
    if net == 0 {
        return Amount(0);
    }
    let earner = Earner {
        unit: units[c],
        contract: c,
        twice_price: prices[c],
        net,
    };
    credit_from(e, earner, first, second)
}

// One entry more in what the contracts earned, by their numbers: it adds to its two contracts alone, and nothing where it formed nothing.
fn add_credits(
    earned: &mut [u64; CONTRACTS],
    units: &[u64; CONTRACTS],
    prices: &[u64; CONTRACTS],
    nets: &[u64; CONTRACTS],
    e: &[u8],
    first: Spreads,
    second: Spreads,
)
    requires { EntryRoom (earner_at units.now prices.now nets.now) e.now first.0 second.0 × EarnedRoom earned.old }
    ensures { WithEntry (earner_at units.now prices.now nets.now) e.now first.0 second.0
        earned.old earned.new }
{
    if first.0 == 0 && second.0 == 0 {
        return;
    }
    let a = contract(e);
    let b = second_contract(e);
    let to_first = credit_at(a, units, prices, nets, e, first, second);
    let to_second = credit_at(b, units, prices, nets, e, first, second);
    earned[a] += to_first.0;
    earned[b] += to_second.0;
}

// What the contracts earn from the entries of the intercontract table, by their numbers.
pub fn credits(
    entries: &[u8],
    units: &[u64; CONTRACTS],
    prices: &[u64; CONTRACTS],
    nets: &[u64; CONTRACTS],
    first: &[u64; MOST_SPREADS],
    second: &[u64; MOST_SPREADS],
) -> [u64; CONTRACTS]
    requires { WalkRoom (earner_at units.now prices.now nets.now) (records entries.now) (spreads_from first.now) (spreads_from second.now)
        × ((length first.now ≡ spread_places) × (length second.now ≡ spread_places)) }
    ensures { EarnedBy (earner_at units.now prices.now nets.now) (records entries.now)
        (spreads_from first.now) (spreads_from second.now) result }
{
    let mut earned = [0; CONTRACTS];
    for (i, e) in entries.chunks_exact(RECORD_BYTES).enumerate() {
        add_credits(
            &mut earned,
            units,
            prices,
            nets,
            e,
            Spreads(first[i]),
            Spreads(second[i]),
        );
    }
    earned
}
