// A run of accounts, answered in one call (request 2026-08): each account's figures in its place, as a call of its own gives them.
#![tactic(auto)]

ghost use Rattle.std.specs.Prelude.{◌≡◌, ◌+◌, ◌*◌, ◌≤◌, eqb, length};
ghost use Rattle.exact.specs.Lists.{sum};
ghost use Rattle.formulas.specs.Bounds.{longest_figures};
ghost use Rattle.questions.specs.Questions.{figures_answer, after_figures};
ghost use Rattle.runs.specs.Runs.{outcome_numbers, outcome_of, run_answer, run_figures, run_outcomes};
ghost use Rattle.margin.specs.Places.{at_place};

use account::answers::{Refusal, number_of, record_of};
use margin::asking::Question;
use margin::numbers::LONGEST_FIGURES;
use questions::plain::answer;

// The numbers of an account's place for refusal and record.
const OUTCOME: usize = 2;

// Whether the lengths add up to a whole, without adding them: each is taken from what is left.
pub fn add_up(lengths: &[usize], whole: usize) -> bool
    ensures { result ≡ eqb (sum lengths.now) whole }
{
    let mut left = whole;
    for n in lengths {
        if left < *n {
            return false;
        }
        left -= *n;
    }
    left == 0
}

// The figures of an account, in its place.
fn place_figures(account: &[u8], place: usize, out: &mut [i64]) -> Result<(), Refusal>
    requires { longest_figures * place + longest_figures ≤ length out.old }
    ensures { (result ≡ figures_answer account.now longest_figures)
        × (out.new ≡ at_place longest_figures (longest_figures * place) (after_figures account.now) out.old) }
{
    let start = LONGEST_FIGURES * place;
    answer(
        account,
        Question::Figures,
        &mut out[start..start + LONGEST_FIGURES],
    )
}

// Refusal and record of an answer, in their place.
fn place_outcome(answer: Result<(), Refusal>, place: usize, out: &mut [usize])
    requires { outcome_numbers * place + outcome_numbers ≤ length out.old }
    ensures { out.new ≡ at_place outcome_numbers (outcome_numbers * place) (λ lent. outcome_of answer) out.old }
{
    let at = OUTCOME * place;
    out[at] = number_of(answer);
    out[at + 1] = record_of(answer);
}

// A run of accounts, one after the other in `accounts`, each of its length. The figures of account i, as a call of its own leaves
// them, stand in the 129 numbers from number 129 * i of `out`; its refusal and record, both 0 if it is accepted, in the two from
// number 2 * i of `outcomes`. The run is refused as a whole with 17 where the lengths do not add up to what is lent, then with
// 10 where numbers are lacking for a place: then nothing is written.
pub fn answer_run(
    accounts: &[u8],
    lengths: &[usize],
    out: &mut [i64],
    outcomes: &mut [usize],
) -> Result<(), Refusal>
    ensures value { result ≡ run_answer accounts.now lengths.now (length out.old) (length outcomes.old) }
    ensures out_after { out.new ≡ run_figures accounts.now lengths.now (length outcomes.old) out.old }
    ensures outcomes_after { outcomes.new ≡ run_outcomes accounts.now lengths.now (length out.old) outcomes.old }
{
    if !add_up(lengths, accounts.len()) {
        return Err(Refusal::LengthsDiffer);
    }
    let count = lengths.len();
    if out.len() / LONGEST_FIGURES < count {
        return Err(Refusal::TooFewNumbers(0));
    }
    if outcomes.len() / OUTCOME < count {
        return Err(Refusal::TooFewNumbers(0));
    }
    let mut at = 0;
    for (i, length) in lengths.iter().enumerate() {
        let end = at + *length;
        let answer = place_figures(&accounts[at..end], i, out);
        place_outcome(answer, i, outcomes);
        at = end;
    }
    Ok(())
}
