// Figures that are written before the credits are known: a contract's line with no credit for now, what the intercontract table needs
// of it beside it, and then its credit and its margin.
ghost use Rattle.std.specs.Prelude.{◌≡◌, List, map, ◌+◌, ◌*◌, ◌≤◌, ◌<◌, pos, length, take};
ghost use Rattle.std.proofs.lemmas.List.Edits.{sets};
ghost use Rattle.record.specs.Layout.{Record};
ghost use Rattle.account.specs.Check.{most_contracts};
ghost use Rattle.spread.specs.Accepted.{prompt_places};
ghost use Rattle.formulas.specs.Bounds.{figures_each, most_risk};
ghost use Rattle.formulas.specs.code.Lines.{LineWithin, margin_with, figures_from};
ghost use Rattle.margin.specs.Figures.{figures};
ghost use Rattle.margin.specs.code.Numbers.{LinesWithin};
ghost use Rattle.margin.specs.code.Tabled.{line_at, lines_at, credits_at, Placed, CreditedIn, CreditedKnown};

use crate::numbers::{FIGURES_EACH, put, put_line};
use account::parts::CONTRACTS;
use exact::signed::magnitude;
use formulas::amount::Amount;
use formulas::charges::credits;
use formulas::line::Line;
use spread::{Delta, MOST_PROMPTS, MOST_SPREADS};

// The i-th contract's line in its places: its eight numbers without a credit; its number and its net delta as a tier; and by its number its
// unit, twice its price risk and the size of its net delta. It gives the margin.
pub(crate) fn place_line(
    i: usize,
    line: Line,
    out: &mut [i64],
    tiers: &mut [u8; MOST_PROMPTS],
    nets: &mut [i64; MOST_PROMPTS],
    units: &mut [u64; CONTRACTS],
    prices: &mut [u64; CONTRACTS],
    sizes: &mut [u64; CONTRACTS],
) -> Amount
    requires { (i < most_contracts) × ((i * figures_each + figures_each ≤ length out.old) × (LineWithin line
        × (((length tiers.old ≡ prompt_places) × (length nets.old ≡ prompt_places))
        × ((length units.old ≡ most_contracts) × ((length prices.old ≡ most_contracts) × (length sizes.old ≡ most_contracts)))))) }
    ensures placed { Placed i line out.old tiers.old nets.old units.old prices.old
        sizes.old out.new tiers.new nets.new units.new prices.new sizes.new }
    ensures margin { (result.0 ≡ margin_with line 0) × (result.0 ≤ 3 * most_risk) }
{
    let c = line.contract;
    let number = line.net.0;
    let margin = put_line(out, i * FIGURES_EACH, line, Amount(0));
    tiers[i] = c as u8;
    nets[i] = number;
    units[c] = line.unit;
    prices[c] = line.twice_price;
    sizes[c] = magnitude(number);
    margin
}

// The line whose eight numbers stand from a place on, but for what its credit is worked out from.
fn line_from(out: &[i64], at: usize) -> Line
    requires { at + figures_each ≤ length out.now }
    ensures { result ≡ line_at out.now at }
{
    Line {
        contract: magnitude(out[at]) as usize,
        unit: 0,
        active: magnitude(out[at + 1]) as usize,
        scanning: Amount(magnitude(out[at + 2])),
        interprompt: Amount(magnitude(out[at + 3])),
        prompt: Amount(magnitude(out[at + 4])),
        minimum: Amount(magnitude(out[at + 6])),
        twice_price: 0,
        net: Delta(0),
    }
}

// The credits of the contracts, by their numbers, and their margins in the lines that stand from the front; and the total.
fn put_credits(count: usize, earned: &[u64; CONTRACTS], out: &mut [i64])
    requires { LinesWithin count (lines_at out.old) (credits_at earned.now (lines_at out.old))
        × ((figures_each * count + 1 ≤ length out.old) × (length earned.now ≡ most_contracts)) }
    ensures { out.new ≡ sets out.old 0 (map pos
        (figures_from (take count (lines_at out.old)) (take count (credits_at earned.now (lines_at out.old))))) }
{
    let mut total: u64 = 0;
    for i in 0..count {
        let at = i * FIGURES_EACH;
        let line = line_from(out, at);
        let margin = put_line(out, at, line, Amount(earned[line.contract]));
        total += margin.0;
    }
    put(out, count * FIGURES_EACH, total);
}

// The figures, by the lines that stand from the front and the numbers that the intercontract spreads formed.
pub(crate) fn put_formed(
    count: usize,
    entries: &[u8],
    units: &[u64; CONTRACTS],
    prices: &[u64; CONTRACTS],
    sizes: &[u64; CONTRACTS],
    first: &[u64; MOST_SPREADS],
    second: &[u64; MOST_SPREADS],
    out: &mut [i64],
)
    requires { CreditedKnown count entries.now units.now prices.now sizes.now first.now second.now out.old
        × (figures_each * count + 1 ≤ length out.old) }
    ensures { (whole : List Record) → CreditedIn whole count entries.now units.now prices.now
        sizes.now first.now second.now out.old
        → out.new ≡ sets out.old 0 (figures whole) }
{
    let earned = credits(entries, units, prices, sizes, first, second);
    put_credits(count, &earned, out);
}
