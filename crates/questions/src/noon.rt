// "Noon against the morning": the questions over the joined account of a pair of files, and the call.
ghost use Rattle.std.specs.Prelude.{◌≡◌, ◌≤◌, length};
ghost use Rattle.account.specs.Noon.{of_joined};
ghost use Rattle.account.specs.code.Pair.{PairBy};
ghost use Rattle.margin.specs.Questions.{most_for};
ghost use Rattle.questions.specs.Noon.{joined_answer, after_joined, joined_need, cover_call, most_amount, beyond_amount, joined_call};
ghost use Rattle.questions.specs.code.Held.{PairAllAnswered};

use account::accounts::record_total;
use account::answers::Refusal;
use account::noon::{CheckedPair, JOINED, Verdict, check_pair};
use exact::signed::magnitude;
use formulas::amount::Amount;
use margin::asking::{Question, answer_over, needed_over};
use margin::everything::{everything_over, total_over};

// An answer about the joined account.
fn of_joined(answer: Result<(), Refusal>) -> Verdict
    ensures { result ≡ of_joined answer }
{
    Verdict {
        file: JOINED,
        answer,
    }
}

// A question's answer over the joined account of a pair that is checked, at the front of `out`. A refusal writes nothing.
fn answer_pair<'a>(
    morning: &'a [u8],
    noon: &'a [u8],
    checked: &CheckedPair,
    question: Question,
    out: &mut [i64],
) -> Verdict
    requires { PairBy morning.now noon.now checked.now }
    ensures { (result ≡ joined_answer morning.now noon.now question (length out.old))
        × (out.new ≡ after_joined morning.now noon.now question out.old) }
{
    if checked.verdict.answer.is_err() {
        return checked.verdict;
    }
    of_joined(answer_over(morning, noon, checked.account, question, out))
}

// A question's answer over the joined account, at the front of `out`. A refusal writes nothing.
pub fn answer<'a>(morning: &'a [u8], noon: &'a [u8], question: Question, out: &mut [i64]) -> Verdict
    ensures { (result ≡ joined_answer morning.now noon.now question (length out.old))
        × (out.new ≡ after_joined morning.now noon.now question out.old) }
{
    answer_pair(morning, noon, &check_pair(morning, noon), question, out)
}

// How many numbers the answer of a question has, 0 where there is none.
pub fn needed<'a>(morning: &'a [u8], noon: &'a [u8], question: Question) -> usize
    ensures { (result ≡ joined_need morning.now noon.now question) × (result ≤ most_for question) }
{
    let checked = check_pair(morning, noon);
    if checked.verdict.answer.is_err() {
        return 0;
    }
    needed_over(morning, noon, checked.account, question)
}

// What a pair of files is answered that is asked for everything: its figures, the books of all questions, and their uses.
#[derive(Clone, Copy)]
pub struct AskedPair {
    pub figures: Verdict,
    pub books: Verdict,
    pub uses: Verdict,
}

// The figures, and the books and uses of all questions, over the joined account of a pair that is checked once.
pub fn ask_all<'a>(
    morning: &'a [u8],
    noon: &'a [u8],
    figures: &mut [i64],
    books: &mut [i64],
    uses: &mut [i64],
) -> AskedPair
    ensures { PairAllAnswered morning.now noon.now figures.old books.old uses.old result
        figures.new books.new uses.new }
{
    let checked = check_pair(morning, noon);
    let verdict = checked.verdict;
    if verdict.answer.is_err() {
        return AskedPair {
            figures: verdict,
            books: verdict,
            uses: verdict,
        };
    }
    let all = everything_over(morning, noon, checked.account, figures, books, uses);
    AskedPair {
        figures: of_joined(all.figures),
        books: of_joined(all.books),
        uses: of_joined(all.uses),
    }
}

// "The three amounts, in hundredths, are 0..1,000,000,000,000,000."
const MOST_AMOUNT: i64 = 1000000000000000;

fn beyond_amount(z: i64) -> bool
    ensures { result ≡ beyond_amount z }
{
    (z < 0) | (MOST_AMOUNT < z)
}

// "None unless the requirement exceeds the last cover call plus the threshold and also the revalued collateral; otherwise
// requirement minus collateral"; none is 0.
fn call_of(required: Amount, last: Amount, threshold: Amount, collateral: Amount) -> Amount
    requires { (last.0 ≤ most_amount) × (threshold.0 ≤ most_amount) }
    ensures { result.0 ≡ cover_call required.0 last.0 threshold.0 collateral.0 }
{
    if required.0 <= last.0 + threshold.0 {
        return Amount(0);
    }
    if required.0 <= collateral.0 {
        return Amount(0);
    }
    Amount(required.0 - collateral.0)
}

// A call and the verdict on the pair of files; 0 where there is none.
#[derive(Clone, Copy)]
pub struct Call {
    pub verdict: Verdict,
    pub amount: Amount,
}

// The call for the joined account, given the last cover call, the threshold and the revalued collateral.
pub fn cover_call<'a>(
    morning: &'a [u8],
    noon: &'a [u8],
    last: i64,
    threshold: i64,
    collateral: i64,
) -> Call
    ensures { result ≡ joined_call morning.now noon.now last threshold collateral }
{
    let checked = check_pair(morning, noon);
    let verdict = checked.verdict;
    if verdict.answer.is_err() {
        return Call {
            verdict,
            amount: Amount(0),
        };
    }
    let account = checked.account;
    if beyond_amount(last) | beyond_amount(threshold) | beyond_amount(collateral) {
        return Call {
            verdict: of_joined(Err(Refusal::AmountOutside(record_total(account)))),
            amount: Amount(0),
        };
    }
    let required = total_over(morning, noon, account);
    Call {
        verdict,
        amount: call_of(
            required,
            Amount(magnitude(last)),
            Amount(magnitude(threshold)),
            Amount(magnitude(collateral)),
        ),
    }
}
