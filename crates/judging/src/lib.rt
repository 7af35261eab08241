// A list of spreads that others send, judged by the spread steps (request 2026-10): right, or which step is wrong first, and why.
#![tactic(auto)]

ghost use Rattle.std.specs.Prelude.{◌≡◌, true, ◌&&◌, ◌*◌, ◌≤◌, eqb, pos, length, take};
ghost use Rattle.std.specs.Int.Signed.{lt_z};
ghost use Rattle.spread.specs.Accepted.{open_of, steps_of, sound, prompt_places, spread_places};
ghost use Rattle.spread.specs.Uses.{sound_for};
ghost use Rattle.judging.specs.Judged.{level, alike, told_of, verdict_of, judged_from, judged};
ghost use Rattle.spread.specs.code.Lent.{deltas_in};
ghost use Rattle.judging.specs.code.Compared.{is_right, ComparedTo};

use spread::accepted::accepted;
use spread::stepwise::step_over;
use spread::{Delta, MOST_PROMPTS, Prompts, Spread, Table};

// What is said of a list. A step is named by its place, from 0. Other counts are one of the things said (`counts`, Claims), and no `None`.
#[derive(Clone, Copy)]
pub enum Verdict {
    Right,
    MoreThanFormed(usize),
    LessThanFormed(usize),
    WrongUse(usize),
    OtherCounts,
}

// What is said of a step, and the prompts as it leaves them.
#[derive(Clone, Copy)]
struct Compared {
    verdict: Verdict,
    left: Prompts,
}

// "its number is more than can be formed"
fn is_more(formed: u64, number: i64) -> bool
    ensures { result ≡ lt_z (pos formed) number }
{
    (0 <= number) & (formed < number.unsigned_abs())
}

// "or less"
fn is_less(formed: u64, number: i64) -> bool
    ensures { result ≡ lt_z number (pos formed) }
{
    (number < 0) | (number.unsigned_abs() < formed)
}

fn same_use(sent: i64, taken: Delta) -> bool
    ensures { result ≡ level sent taken.0 }
{
    sent == taken.0
}

// Whether the uses sent for a step are those that it makes.
fn same_uses(uses: &[i64], taken: [Delta; MOST_PROMPTS]) -> bool
    requires { length uses.now ≤ prompt_places }
    ensures { result ≡ alike uses.now (take (length uses.now) (deltas_in taken)) }
{
    for (k, sent) in uses.iter().enumerate() {
        if !same_use(*sent, taken[k]) {
            return false;
        }
    }
    true
}

fn verdict_of(step: usize, formed: u64, number: i64, alike: bool) -> Verdict
    ensures { result ≡ verdict_of step formed number alike Verdict.Right }
{
    if is_more(formed, number) {
        Verdict::MoreThanFormed(step)
    } else if is_less(formed, number) {
        Verdict::LessThanFormed(step)
    } else if alike {
        Verdict::Right
    } else {
        Verdict::WrongUse(step)
    }
}

// A step, with the number and the uses that are sent for it.
fn compare(
    prompts: Prompts,
    spread: Spread,
    second: bool,
    step: usize,
    number: i64,
    uses: &[i64],
) -> Compared
    requires { (sound_for prompts spread ≡ true) × (length uses.now ≡ prompts.count) }
    ensures { ComparedTo prompts spread second step number uses.now result }
{
    let taking = step_over(prompts, spread, second);
    let alike = same_uses(uses, taking.taken);
    Compared {
        verdict: verdict_of(step, taking.number.0, number, alike),
        left: taking.left,
    }
}

fn is_right(verdict: Verdict) -> bool
    ensures { result ≡ is_right verdict }
{
    matches!(verdict, Verdict::Right)
}

// One step after the other, till one is wrong.
fn judge_steps(prompts: Prompts, table: Table, numbers: &[i64], uses: &[i64]) -> Verdict
    requires { (sound prompts table ≡ true) × ((length numbers.now ≡ 2 * table.count) × (length uses.now ≡ 2 * table.count * prompts.count)) }
    ensures { result ≡ judged_from 0 (steps_of table) (open_of prompts) (told_of prompts.count numbers.now uses.now) }
{
    let n = prompts.count;
    let mut left = prompts;
    let mut at = 0;
    for (step, number) in numbers.iter().enumerate() {
        let spread = table.spread[step / 2];
        let second = step % 2 == 1;
        let compared = compare(left, spread, second, step, *number, &uses[at..at + n]);
        if !is_right(compared.verdict) {
            return compared.verdict;
        }
        left = compared.left;
        at += n;
    }
    Verdict::Right
}

// Whether a list speaks of as many steps and prompts as there are.
fn same_counts(spreads: usize, prompts: usize, sent: usize, numbers: usize, uses: usize) -> bool
    requires { (spreads ≤ spread_places) × (prompts ≤ prompt_places) }
    ensures { result ≡ eqb numbers (2 * spreads) && (eqb sent prompts && eqb uses (2 * spreads * prompts)) }
{
    numbers == 2 * spreads && sent == prompts && uses == 2 * spreads * prompts
}

// What is said of a list of spreads over these prompts and this table: a number for each step in `numbers`, of each spread its
// first step and then its second; in `uses` what each step used of each prompt, one step after the other; and how many prompts
// the list speaks of. Prompts and spreads that are not accepted have no list.
pub fn judge(prompts: Prompts, table: Table, sent: usize, numbers: &[i64], uses: &[i64]) -> Verdict
    ensures { result ≡ judged prompts table sent numbers.now uses.now }
{
    if accepted(prompts, table)
        && same_counts(table.count, prompts.count, sent, numbers.len(), uses.len())
    {
        judge_steps(prompts, table, numbers, uses)
    } else {
        Verdict::OtherCounts
    }
}
