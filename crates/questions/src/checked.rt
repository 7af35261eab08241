// The questions over a file that is checked: its refusal, or what the account answers that stands in it alone.
ghost use Rattle.std.specs.Prelude.{◌≡◌, ◌≤◌, length};
ghost use Rattle.account.specs.code.Standing.{CheckedBy};
ghost use Rattle.margin.specs.Questions.{most_for};
ghost use Rattle.questions.specs.Questions.{answer_to, after_to, need_to};

use account::accounts::{Account, nothing_of};
use account::answers::Refusal;
use margin::asking::{Question, answer_over, needed_over};

// A question's answer, at the front of `out`. A refusal writes nothing.
pub(crate) fn answer_checked(
    file: &[u8],
    checked: Result<Account, Refusal>,
    question: Question,
    out: &mut [i64],
) -> Result<(), Refusal>
    requires { CheckedBy file.now checked }
    ensures { (result ≡ answer_to file.now question (length out.old))
        × (out.new ≡ after_to file.now question out.old) }
{
    let account = checked?;
    answer_over(file, nothing_of(file), account, question, out)
}

// How many numbers the answer of a question has, 0 where there is none.
pub(crate) fn needed_checked(
    file: &[u8],
    checked: Result<Account, Refusal>,
    question: Question,
) -> usize
    requires { CheckedBy file.now checked }
    ensures { (result ≡ need_to file.now question) × (result ≤ most_for question) }
{
    match checked {
        Ok(account) => needed_over(file, nothing_of(file), account, question),
        Err(_) => 0,
    }
}
