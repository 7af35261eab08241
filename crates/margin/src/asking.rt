// The questions that an account answers. What comes after an account's records is said here once, for one file and for two: 11,
// then 10, and the answer in lent memory.
ghost use Rattle.std.specs.Prelude.{◌≡◌, true, false, List, ℕ, ◌+◌, ◌*◌, ◌≤◌, ◌<◌, length};
ghost use Rattle.record.specs.Layout.{Record, most_contract};
ghost use Rattle.account.specs.code.Lent.{account_in};
ghost use Rattle.account.specs.code.Standing.{Stands};
ghost use Rattle.account.specs.Joined.{account_of};
ghost use Rattle.account.specs.Records.{records};
ghost use Rattle.spread.specs.Accepted.{sound};
ghost use Rattle.margin.specs.Books.{answered};
ghost use Rattle.formulas.specs.Bounds.{longest_book, longest_uses};
ghost use Rattle.margin.specs.code.Positions.{PositionsTell, Known};
ghost use Rattle.margin.specs.Questions.{answer_over, after_over, need_over, most_for};
ghost use Rattle.margin.specs.code.Asked.{SizesOf, AskedBy};
ghost use Rattle.margin.specs.Places.{question_of};
ghost use Rattle.margin.specs.declared.asking.Question.{Question};
ghost use Rattle.margin.specs.declared.asking.Question.TheVariants.{Figures, Book, Uses};

use crate::books::{book_count, contract_count, put_asked, run_contract};
use crate::everything::{put_from, put_over};
use crate::over::{TABLE, asking_over, figures_count, is_asked};
use crate::positions::{Positions, asking_from};
use crate::uses::{Asking, answer_uses};
use account::accounts::{Account, prompts_part, rows_part, spreads_part};
use account::answers::Refusal;
use account::lent::{NOTES, contract_total, lend, part_total, record_total, whereabouts_of};
use account::parts::{ENTRIES, PROMPTS, SPREADS};
use formulas::rows::put_net_deltas;
use spread::MOST_PROMPTS;

// The figures; the delta book of a question, 0 to 15 for that contract or 16 for the intercontract table; or who paid for what
// in it: what each step of its table takes of each prompt.
#[derive(Clone, Copy)]
pub enum Question {
    Figures,
    Book(usize),
    Uses(usize),
}

// The numbers of a book at the front of `out`, of an account of so many records. A refusal writes nothing.
fn answer_book(records: usize, asking: Asking, out: &mut [i64]) -> Result<(), Refusal>
    requires { sound asking.prompts asking.table ≡ true }
    ensures { (whole : List Record) (question : ℕ) → AskedBy whole question records asking
        → (result ≡ answer_over whole (Book question) (length out.old)) × (out.new ≡ after_over whole (Book question) out.old) }
{
    if out.len() < book_count(asking.prompts, asking.table) {
        return Err(Refusal::TooFewNumbers(records));
    }
    put_asked(out, asking.prompts, asking.table);
    Ok(())
}

// A question's book, or who paid for what in it, by what it asks about.
fn answer_asking(records: usize, asking: Asking, paid: bool, out: &mut [i64]) -> Result<(), Refusal>
    requires { sound asking.prompts asking.table ≡ true }
    ensures { (whole : List Record) (question : ℕ) → AskedBy whole question records asking
        → (result ≡ answer_over whole (question_of paid question) (length out.old))
        × (out.new ≡ after_over whole (question_of paid question) out.old) }
{
    if paid {
        return answer_uses(records, asking, out);
    }
    answer_book(records, asking, out)
}

// The figures are everything without the books and uses.
fn answer_figures<'a>(
    morning: &'a [u8],
    noon: &'a [u8],
    account: &[u16; NOTES],
    out: &mut [i64],
) -> Result<(), Refusal>
    requires { Stands morning.now noon.now (account_in account.now) }
    ensures { (result ≡ answer_over (account_of morning.now noon.now) Figures (length out.old))
        × (out.new ≡ after_over (account_of morning.now noon.now) Figures out.old) }
{
    if out.len() < figures_count(account) {
        return Err(Refusal::TooFewNumbers(record_total(account)));
    }
    let mut books = [0i64; 0];
    let mut uses = [0i64; 0];
    put_over(morning, noon, account, out, &mut books, &mut uses);
    Ok(())
}

// The book of a contract that is listed, by its records in the files.
fn answer_contract_book<'a>(
    morning: &'a [u8],
    noon: &'a [u8],
    account: &[u16; NOTES],
    c: usize,
    out: &mut [i64],
) -> Result<(), Refusal>
    requires { Stands morning.now noon.now (account_in account.now)
        × ((c ≤ most_contract) × (answered (account_of morning.now noon.now) c ≡ true)) }
    ensures { (result ≡ answer_over (account_of morning.now noon.now) (Book c) (length out.old))
        × (out.new ≡ after_over (account_of morning.now noon.now) (Book c) out.old) }
{
    let w = whereabouts_of(account, c);
    let prompts = prompts_part(morning, noon, w);
    let spreads = spreads_part(morning, noon, w);
    if out.len() < contract_count(prompts, spreads) {
        return Err(Refusal::TooFewNumbers(record_total(account)));
    }
    let rows = rows_part(morning, noon, w);
    let mut nets = [0i64; MOST_PROMPTS];
    put_net_deltas(&mut nets, prompts, rows);
    run_contract(out, prompts, &nets, spreads);
    Ok(())
}

fn answer_question<'a>(
    morning: &'a [u8],
    noon: &'a [u8],
    account: &[u16; NOTES],
    paid: bool,
    question: usize,
    out: &mut [i64],
) -> Result<(), Refusal>
    requires { Stands morning.now noon.now (account_in account.now) }
    ensures { (result ≡ answer_over (account_of morning.now noon.now) (question_of paid question) (length out.old))
        × (out.new ≡ after_over (account_of morning.now noon.now) (question_of paid question) out.old) }
{
    if !is_asked(account, question) {
        return Err(Refusal::NoSuchQuestion(record_total(account)));
    }
    if !paid & (question != TABLE) {
        return answer_contract_book(morning, noon, account, question, out);
    }
    let asking = asking_over(morning, noon, account, question);
    answer_asking(record_total(account), asking, paid, out)
}

// A question's answer, at the front of `out`. A refusal writes nothing.
pub fn answer_lent<'a>(
    morning: &'a [u8],
    noon: &'a [u8],
    account: &[u16; NOTES],
    question: Question,
    out: &mut [i64],
) -> Result<(), Refusal>
    requires { Stands morning.now noon.now (account_in account.now) }
    ensures { (result ≡ answer_over (account_of morning.now noon.now) question (length out.old))
        × (out.new ≡ after_over (account_of morning.now noon.now) question out.old) }
{
    match question {
        Question::Figures => answer_figures(morning, noon, account, out),
        Question::Book(q) => answer_question(morning, noon, account, false, q, out),
        Question::Uses(q) => answer_question(morning, noon, account, true, q, out),
    }
}

// The same of an account by value, which is lent.
pub fn answer_over<'a>(
    morning: &'a [u8],
    noon: &'a [u8],
    account: Account,
    question: Question,
    out: &mut [i64],
) -> Result<(), Refusal>
    requires { Stands morning.now noon.now account }
    ensures { (result ≡ answer_over (account_of morning.now noon.now) question (length out.old))
        × (out.new ≡ after_over (account_of morning.now noon.now) question out.old) }
{
    let mut notes = [0u16; NOTES];
    lend(account, &mut notes);
    answer_lent(morning, noon, &notes, question, out)
}

fn figures_answer<'a>(
    morning: &'a [u8],
    noon: &'a [u8],
    account: &[u16; NOTES],
    positions: Positions,
    out: &mut [i64],
) -> Result<(), Refusal>
    requires { Stands morning.now noon.now (account_in account.now) × Known (account_of morning.now noon.now) positions }
    ensures { (whole : List Record) → PositionsTell (account_of morning.now noon.now) positions whole
        → (result ≡ answer_over whole Figures (length out.old)) × (out.new ≡ after_over whole Figures out.old) }
{
    if out.len() < figures_count(account) {
        return Err(Refusal::TooFewNumbers(positions.records));
    }
    let mut books = [0i64; 0];
    let mut uses = [0i64; 0];
    put_from(
        morning, noon, account, positions, out, &mut books, &mut uses,
    );
    Ok(())
}

fn question_answer<'a>(
    morning: &'a [u8],
    noon: &'a [u8],
    account: &[u16; NOTES],
    positions: Positions,
    paid: bool,
    question: usize,
    out: &mut [i64],
) -> Result<(), Refusal>
    requires { Stands morning.now noon.now (account_in account.now) × Known (account_of morning.now noon.now) positions }
    ensures { (whole : List Record) → PositionsTell (account_of morning.now noon.now) positions whole
        → (result ≡ answer_over whole (question_of paid question) (length out.old))
        × (out.new ≡ after_over whole (question_of paid question) out.old) }
{
    if !is_asked(account, question) {
        return Err(Refusal::NoSuchQuestion(positions.records));
    }
    let asking = asking_from(morning, noon, account, positions, question);
    answer_asking(positions.records, asking, paid, out)
}

// The same by positions, of an account that but for its rows stands in the files.
fn answer_lent_from<'a>(
    morning: &'a [u8],
    noon: &'a [u8],
    account: &[u16; NOTES],
    positions: Positions,
    question: Question,
    out: &mut [i64],
) -> Result<(), Refusal>
    requires { Stands morning.now noon.now (account_in account.now) × Known (account_of morning.now noon.now) positions }
    ensures { (whole : List Record) → PositionsTell (account_of morning.now noon.now) positions whole
        → (result ≡ answer_over whole question (length out.old)) × (out.new ≡ after_over whole question out.old) }
{
    match question {
        Question::Figures => figures_answer(morning, noon, account, positions, out),
        Question::Book(q) => question_answer(morning, noon, account, positions, false, q, out),
        Question::Uses(q) => question_answer(morning, noon, account, positions, true, q, out),
    }
}

// The same of an account by value, which is lent.
pub fn answer_from<'a>(
    morning: &'a [u8],
    noon: &'a [u8],
    account: Account,
    positions: Positions,
    question: Question,
    out: &mut [i64],
) -> Result<(), Refusal>
    requires { Stands morning.now noon.now account × Known (account_of morning.now noon.now) positions }
    ensures { (whole : List Record) → PositionsTell (account_of morning.now noon.now) positions whole
        → (result ≡ answer_over whole question (length out.old)) × (out.new ≡ after_over whole question out.old) }
{
    let mut notes = [0u16; NOTES];
    lend(account, &mut notes);
    answer_lent_from(morning, noon, &notes, positions, question, out)
}

// How many prompts and spreads a book is about; of the intercontract table, contracts and its spreads.
#[derive(Clone, Copy)]
struct Sizes {
    prompts: usize,
    spreads: usize,
}

fn sizes_over<'a>(
    morning: &'a [u8],
    noon: &'a [u8],
    account: &[u16; NOTES],
    question: usize,
) -> Sizes
    requires { Stands morning.now noon.now (account_in account.now) × (answered (account_of morning.now noon.now) question ≡ true) }
    ensures { SizesOf (account_of morning.now noon.now) question result.prompts result.spreads }
{
    if question == TABLE {
        return Sizes {
            prompts: contract_total(account),
            spreads: part_total(account, ENTRIES),
        };
    }
    Sizes {
        prompts: part_total(account, PROMPTS + question),
        spreads: part_total(account, SPREADS + question),
    }
}

fn book_need<'a>(
    morning: &'a [u8],
    noon: &'a [u8],
    account: &[u16; NOTES],
    question: usize,
) -> usize
    requires { Stands morning.now noon.now (account_in account.now) }
    ensures { (result ≡ need_over (account_of morning.now noon.now) (Book question)) × (result ≤ longest_book) }
{
    if !is_asked(account, question) {
        return 0;
    }
    let sizes = sizes_over(morning, noon, account, question);
    3 * sizes.prompts + 2 * sizes.spreads + 1
}

fn uses_need<'a>(
    morning: &'a [u8],
    noon: &'a [u8],
    account: &[u16; NOTES],
    question: usize,
) -> usize
    requires { Stands morning.now noon.now (account_in account.now) }
    ensures { (result ≡ need_over (account_of morning.now noon.now) (Uses question)) × (result ≤ longest_uses) }
{
    if !is_asked(account, question) {
        return 0;
    }
    let sizes = sizes_over(morning, noon, account, question);
    sizes.spreads * (2 * sizes.prompts)
}

// How many numbers the answer of a question has, 0 where it is not answered.
pub fn needed_lent<'a>(
    morning: &'a [u8],
    noon: &'a [u8],
    account: &[u16; NOTES],
    question: Question,
) -> usize
    requires { Stands morning.now noon.now (account_in account.now) }
    ensures { (result ≡ need_over (account_of morning.now noon.now) question) × (result ≤ most_for question) }
{
    match question {
        Question::Figures => figures_count(account),
        Question::Book(q) => book_need(morning, noon, account, q),
        Question::Uses(q) => uses_need(morning, noon, account, q),
    }
}

// The same of an account by value, which is lent.
pub fn needed_over<'a>(
    morning: &'a [u8],
    noon: &'a [u8],
    account: Account,
    question: Question,
) -> usize
    requires { Stands morning.now noon.now account }
    ensures { (result ≡ need_over (account_of morning.now noon.now) question) × (result ≤ most_for question) }
{
    let mut notes = [0u16; NOTES];
    lend(account, &mut notes);
    needed_lent(morning, noon, &notes, question)
}
