// "One accepted file is held while several questions are put to it, without checking it again."
ghost use Rattle.std.specs.Prelude.{◌≡◌, ◌≤◌, length};
ghost use Rattle.account.specs.code.Standing.{CheckedBy};
ghost use Rattle.margin.specs.Questions.{most_for};
ghost use Rattle.questions.specs.code.Held.{FromCheck, AllAnswered};
ghost use Rattle.questions.specs.Questions.{answer_to, after_to, need_to};

use crate::checked::{answer_checked, needed_checked};
use account::accounts::{Account, check_file, nothing_of};
use account::answers::Refusal;
use margin::asking::Question;
use margin::everything::{Everything, everything_over};

// A view of a file's bytes with what the check says of them. Only `hold` makes one: its fields are of this module
// alone.
#[derive(Clone, Copy)]
pub struct Held<'a> {
    file: &'a [u8],
    checked: Result<Account, Refusal>,
}

// "Only the check hands out such a held file." A refused file is held with its refusal.
pub fn hold<'a>(file: &'a [u8]) -> Held<'a>
    ensures { (result.file ≡ file.entry) × FromCheck result }
{
    Held {
        file,
        checked: check_file(file),
    }
}

// What a file is answered that is asked for everything: its figures, the books of all questions, and their uses.
#[derive(Clone, Copy)]
pub struct Asked {
    pub figures: Result<(), Refusal>,
    pub books: Result<(), Refusal>,
    pub uses: Result<(), Refusal>,
}

fn told(all: Everything) -> Asked
    ensures { (result.figures ≡ all.figures) × ((result.books ≡ all.books) × (result.uses ≡ all.uses)) }
{
    Asked {
        figures: all.figures,
        books: all.books,
        uses: all.uses,
    }
}

fn refused(refusal: Refusal) -> Asked
    ensures { (result.figures ≡ Err refusal) × ((result.books ≡ Err refusal) × (result.uses ≡ Err refusal)) }
{
    Asked {
        figures: Err(refusal),
        books: Err(refusal),
        uses: Err(refusal),
    }
}

// Everything that a checked file is asked for, its positions worked out once.
fn everything(
    file: &[u8],
    checked: &Result<Account, Refusal>,
    figures: &mut [i64],
    books: &mut [i64],
    uses: &mut [i64],
) -> Asked
    requires { CheckedBy file.now checked.now }
    ensures { AllAnswered file.now figures.old books.old uses.old result figures.new
        books.new uses.new }
{
    match checked {
        Ok(account) => told(everything_over(
            file,
            nothing_of(file),
            *account,
            figures,
            books,
            uses,
        )),
        Err(refusal) => refused(*refusal),
    }
}

// A question's answer, of a held file.
pub fn held_answer<'a>(h: Held<'a>, question: Question, out: &mut [i64]) -> Result<(), Refusal>
    requires { FromCheck h }
    ensures { (result ≡ answer_to h.entry.file.now question (length out.old))
        × (out.new ≡ after_to h.entry.file.now question out.old) }
{
    answer_checked(h.file, h.checked, question, out)
}

// How many numbers the answer of a question has, 0 where the held file is refused or does not answer it.
pub fn held_needed<'a>(h: Held<'a>, question: Question) -> usize
    requires { FromCheck h }
    ensures { (result ≡ need_to h.entry.file.now question) × (result ≤ most_for question) }
{
    needed_checked(h.file, h.checked, question)
}

// Everything that a held file is asked for.
pub fn held_all<'a>(h: Held<'a>, figures: &mut [i64], books: &mut [i64], uses: &mut [i64]) -> Asked
    requires { FromCheck h }
    ensures { AllAnswered h.entry.file.now figures.old books.old uses.old result figures.new
        books.new uses.new }
{
    everything(h.file, &h.checked, figures, books, uses)
}

// The figures, and the books and uses of all questions, over plain bytes, of a file that is checked and held once.
pub fn ask_all(file: &[u8], figures: &mut [i64], books: &mut [i64], uses: &mut [i64]) -> Asked
    ensures { AllAnswered file.now figures.old books.old uses.old result figures.new
        books.new uses.new }
{
    held_all(hold(file), figures, books, uses)
}
