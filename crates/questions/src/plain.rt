// The questions over plain bytes. Each checks the file first.
ghost use Rattle.std.specs.Prelude.{◌≡◌, ◌≤◌, length};
ghost use Rattle.margin.specs.Questions.{most_for};
ghost use Rattle.questions.specs.Questions.{answer_to, after_to, need_to};

use account::accounts::nothing_of;
use account::answers::Refusal;
use account::lent::{NOTES, lend_file};
use margin::asking::{Question, answer_lent, needed_lent};

// A question's answer, at the front of `out`. A refusal writes nothing.
pub fn answer(file: &[u8], question: Question, out: &mut [i64]) -> Result<(), Refusal>
    ensures { (result ≡ answer_to file.now question (length out.old))
        × (out.new ≡ after_to file.now question out.old) }
{
    let mut notes = [0u16; NOTES];
    lend_file(file, &mut notes)?;
    answer_lent(file, nothing_of(file), &notes, question, out)
}

// How many numbers the answer of a question has, 0 where the file is refused or does not answer it.
pub fn needed(file: &[u8], question: Question) -> usize
    ensures { (result ≡ need_to file.now question) × (result ≤ most_for question) }
{
    let mut notes = [0u16; NOTES];
    match lend_file(file, &mut notes) {
        Ok(()) => needed_lent(file, nothing_of(file), &notes, question),
        Err(_) => 0,
    }
}
