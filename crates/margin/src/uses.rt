// Who paid for what: for each step of a table of spreads, what it takes of each prompt.
ghost use Rattle.std.specs.Prelude.{◌≡◌, true, List, ℕ, ◌+◌, ◌*◌, ◌≤◌, length, take};
ghost use Rattle.std.proofs.lemmas.List.Edits.{sets};
ghost use Rattle.record.specs.Layout.{Record};
ghost use Rattle.account.specs.Check.{most_prompts};
ghost use Rattle.spread.specs.Accepted.{open_of, steps_of, sound};
ghost use Rattle.spread.specs.Steps.{step_of};
ghost use Rattle.spread.specs.Uses.{taken_of, uses_of, sound_for};
ghost use Rattle.formulas.specs.code.Sums.{deltas_in};
ghost use Rattle.margin.specs.Questions.{answer_over, after_over};
ghost use Rattle.margin.specs.code.Asked.{AskedBy};
ghost use Rattle.margin.specs.code.Asking.{LeftBy};
ghost use Rattle.margin.specs.declared.asking.Question.TheVariants.{Uses};

use account::answers::Refusal;
use spread::stepwise::step_over;
use spread::{Delta, MOST_PROMPTS, Prompts, Spread, Table};

// What a question asks about: prompts with their net deltas, or contracts as tiers, and the table of spreads over them.
#[derive(Clone, Copy)]
pub struct Asking {
    pub prompts: Prompts,
    pub table: Table,
}

// Deltas, one after the other from a place on.
fn put_deltas(out: &mut [i64], at: usize, count: usize, deltas: [Delta; MOST_PROMPTS])
    requires { (count ≤ most_prompts) × (at + count ≤ length out.old) }
    ensures { out.new ≡ sets out.old at (take count (deltas_in deltas)) }
{
    for i in 0..count {
        out[at + i] = deltas[i].0;
    }
}

// What a step takes of each prompt, from a place on; and the prompts as it leaves them.
fn put_step(out: &mut [i64], at: usize, prompts: Prompts, spread: Spread, second: bool) -> Prompts
    requires { (sound_for prompts spread ≡ true) × (at + prompts.count ≤ length out.old) }
    ensures { LeftBy prompts spread second result × (out.new ≡ sets out.old at (taken_of (step_of second spread) (open_of prompts))) }
{
    let step = step_over(prompts, spread, second);
    put_deltas(out, at, prompts.count, step.taken);
    step.left
}

// How many numbers the uses of a table have: one for each prompt in each of a spread's two steps.
fn uses_count(prompts: Prompts, table: Table) -> usize
    requires { sound prompts table ≡ true }
    ensures { result ≡ table.count * (2 * prompts.count) }
{
    table.count * (2 * prompts.count)
}

// What each step of a table takes of each prompt, one step after the other.
fn put_uses(out: &mut [i64], prompts: Prompts, table: Table)
    requires { (sound prompts table ≡ true) × (table.count * (2 * prompts.count) ≤ length out.old) }
    ensures { out.new ≡ sets out.old 0 (uses_of (steps_of table) (open_of prompts)) }
{
    let n = prompts.count;
    let mut left = prompts;
    let mut at = 0;
    for i in 0..table.count {
        let spread = table.spread[i];
        let between = put_step(out, at, left, spread, false);
        left = put_step(out, at + n, between, spread, true);
        at += 2 * n;
    }
}

// What each step takes of each prompt, at the front of `out`, of an account of so many records. A refusal writes nothing.
pub(crate) fn answer_uses(records: usize, asking: Asking, out: &mut [i64]) -> Result<(), Refusal>
    requires { sound asking.prompts asking.table ≡ true }
    ensures { (whole : List Record) (question : ℕ) → AskedBy whole question records asking
        → (result ≡ answer_over whole (Uses question) (length out.old)) × (out.new ≡ after_over whole (Uses question) out.old) }
{
    if out.len() < uses_count(asking.prompts, asking.table) {
        return Err(Refusal::TooFewNumbers(records));
    }
    put_uses(out, asking.prompts, asking.table);
    Ok(())
}
