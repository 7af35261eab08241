// Answers: numbers written to lent memory.
ghost use Rattle.std.specs.Prelude.{◌≡◌, List, [], ◌∷◌, map, ◌+◌, ◌*◌, ◌^◌, ◌≤◌, ◌<◌, pos, length, take, set};
ghost use Rattle.std.proofs.lemmas.List.Edits.{sets};
ghost use Rattle.spread.specs.Steps.{Open};
ghost use Rattle.spread.specs.Touches.{most_touches};
ghost use Rattle.spread.specs.code.Lent.{spreads_from};
ghost use Rattle.formulas.specs.Bounds.{most_risk, most_credits, figures_each};
ghost use Rattle.formulas.specs.code.Lines.{LineWithin, margin_with, eight_of};
ghost use Rattle.margin.specs.code.Numbers.{PromptsLent, SpreadsSigned, numbers_in};
ghost use Rattle.margin.specs.Books.{threes, book_by};
ghost use Rattle.account.specs.Check.{most_prompts};
ghost use Rattle.formulas.specs.code.Sums.{interleaved};

use account::parts::CONTRACTS;
use formulas::amount::{Amount, margin, risk};
use formulas::line::Line;
use spread::{MOST_PROMPTS, MOST_SPREADS};

// The numbers of a contract in the figures.
pub const FIGURES_EACH: usize = 8;

// The most numbers that the figures have: eight for each contract, and the total.
pub const LONGEST_FIGURES: usize = FIGURES_EACH * CONTRACTS + 1;

// The most that a book has: three for each prompt, two for each spread, and how often a prompt was touched.
pub const LONGEST_BOOK: usize = 3 * MOST_PROMPTS + 2 * MOST_SPREADS + 1;

// The most that say who paid in it: one for each prompt in each spread's two steps.
pub const LONGEST_USES: usize = 2 * MOST_SPREADS * MOST_PROMPTS;

// A number that is not negative, at a place.
pub(crate) fn put(out: &mut [i64], at: usize, x: u64)
    requires { (at < length out.old) × (x < 2 ^ 63) }
    ensures { out.new ≡ set out.old at (pos x) }
{
    out[at] = x as i64;
}

// A contract's margin.
fn margin_of(l: Line, credit: Amount) -> Amount
    requires { LineWithin l }
    ensures { (result.0 ≡ margin_with l credit.0) × (result.0 ≤ 3 * most_risk) }
{
    margin(l.minimum, risk(l.scanning, l.interprompt, l.prompt, credit))
}

// A contract's eight numbers, from a place on.
fn put_eight(out: &mut [i64], at: usize, l: Line, credit: Amount, margin: Amount)
    requires { (at + figures_each ≤ length out.old)
        × (LineWithin l × ((credit.0 ≤ most_credits) × ((margin.0 ≡ margin_with l credit.0) × (margin.0 ≤ 3 * most_risk)))) }
    ensures { out.new ≡ sets out.old at (map pos (eight_of l credit.0)) }
{
    put(out, at, l.contract as u64);
    put(out, at + 1, l.active as u64);
    put(out, at + 2, l.scanning.0);
    put(out, at + 3, l.interprompt.0);
    put(out, at + 4, l.prompt.0);
    put(out, at + 5, credit.0);
    put(out, at + 6, l.minimum.0);
    put(out, at + 7, margin.0);
}

// The same, by the line and its credit; and the margin.
pub(crate) fn put_line(out: &mut [i64], at: usize, l: Line, credit: Amount) -> Amount
    requires { (at + figures_each ≤ length out.old) × (LineWithin l × (credit.0 ≤ most_credits)) }
    ensures written { out.new ≡ sets out.old at (map pos (eight_of l credit.0)) }
    ensures margin { (result.0 ≡ margin_with l credit.0) × (result.0 ≤ 3 * most_risk) }
{
    let margin = margin_of(l, credit);
    put_eight(out, at, l, credit, margin);
    margin
}

// The net delta of a prompt, and what of it is used and unused, from a place on.
fn put_three(out: &mut [i64], at: usize, net: i64, used: i64, unused: i64)
    requires { at + 3 ≤ length out.old }
    ensures { out.new ≡ sets out.old at (net ∷ used ∷ unused ∷ []) }
{
    out[at] = net;
    out[at + 1] = used;
    out[at + 2] = unused;
}

// The numbers of a spread's two steps, from a place on.
fn put_two(out: &mut [i64], at: usize, first: u64, second: u64)
    requires { (at + 2 ≤ length out.old) × ((first < 2 ^ 63) × (second < 2 ^ 63)) }
    ensures { out.new ≡ sets out.old at (pos first ∷ pos second ∷ []) }
{
    put(out, at, first);
    put(out, at + 1, second);
}

// The numbers of a book without spreads from the front: of each prompt the net delta, nothing used and the same unused.
pub(crate) fn put_unspread(out: &mut [i64], prompts: usize, nets: &[i64; MOST_PROMPTS])
    requires { (prompts ≤ most_prompts) × ((prompts ≤ length nets.now) × (3 * prompts + 1 ≤ length out.old)) }
    ensures { (ps : List Open) → take prompts nets.now ≡ map (λ p. p.unused) ps
        → out.new ≡ sets out.old 0 (book_by [] ps) }
{
    for i in 0..prompts {
        put_three(out, i * 3, nets[i], 0, nets[i]);
    }
    put(out, prompts * 3, 0);
}

// Three numbers for each prompt, from the front.
fn put_prompts(
    out: &mut [i64],
    prompts: usize,
    nets: &[i64; MOST_PROMPTS],
    used: &[i64; MOST_PROMPTS],
    unused: &[i64; MOST_PROMPTS],
)
    requires { PromptsLent prompts nets.now used.now unused.now × (3 * prompts ≤ length out.old) }
    ensures { out.new ≡ sets out.old 0
        (threes (take prompts nets.now) (take prompts used.now) (take prompts unused.now)) }
{
    for i in 0..prompts {
        put_three(out, i * 3, nets[i], used[i], unused[i]);
    }
}

// Two numbers for each spread, from a place on.
fn put_spreads(
    out: &mut [i64],
    at: usize,
    spreads: usize,
    first: &[u64; MOST_SPREADS],
    second: &[u64; MOST_SPREADS],
)
    requires { (at + 2 * spreads ≤ length out.old) × SpreadsSigned spreads first.now second.now }
    ensures { out.new ≡ sets out.old at
        (map pos (interleaved (take spreads (spreads_from first.now)) (take spreads (spreads_from second.now)))) }
{
    for i in 0..spreads {
        put_two(out, at + i * 2, first[i], second[i]);
    }
}

// The numbers of a book from the front: three for each prompt, two for each spread, and how often a prompt was touched.
pub(crate) fn put_numbers(
    out: &mut [i64],
    prompts: usize,
    spreads: usize,
    nets: &[i64; MOST_PROMPTS],
    first: &[u64; MOST_SPREADS],
    second: &[u64; MOST_SPREADS],
    used: &[i64; MOST_PROMPTS],
    unused: &[i64; MOST_PROMPTS],
    touches: u64,
)
    requires { PromptsLent prompts nets.now used.now unused.now × (SpreadsSigned spreads first.now second.now
        × ((touches ≤ most_touches) × (3 * prompts + 2 * spreads + 1 ≤ length out.old))) }
    ensures { out.new ≡ sets out.old 0
        (numbers_in prompts spreads nets.now first.now second.now used.now unused.now touches) }
{
    put_prompts(out, prompts, nets, used, unused);
    put_spreads(out, prompts * 3, spreads, first, second);
    put(out, prompts * 3 + spreads * 2, touches);
}
