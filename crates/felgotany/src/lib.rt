// Felgotany as C sees it: the check, the figures and the delta book over any bytes, the same of a morning's file with a noon file,
// the figures of a run of accounts, the risk committee's of it, tickets, a file of entries, and the order screen's calls.
// include/felgotany.h says the same in C's words.
#![tactic(auto)]

ghost use Rattle.std.specs.Prelude.{◌≡◌, true, false, ◌≤◌, length};
ghost use Rattle.account.specs.Checked.{checked};
ghost use Rattle.formulas.specs.Bounds.{longest_figures, longest_book, longest_uses};
ghost use Rattle.questions.specs.Questions.{figures_answer, after_figures, book_answer, after_book, uses_answer, after_uses, figures_need, book_need, uses_need};
ghost use Rattle.questions.specs.Questions.{books_answer, books_after, all_uses_answer, all_uses_after};
ghost use Rattle.account.specs.Noon.{prompt_place};
ghost use Rattle.questions.specs.Noon.{joined_figures, after_joined_figures, joined_book, after_joined_book, joined_uses, after_joined_uses, joined_call, joined_need};
ghost use Rattle.questions.specs.Noon.{joined_all, after_joined_all};
ghost use Rattle.account.specs.Answers.{answer_of};
ghost use Rattle.lists.specs.Lists.{verdict_number, step_named, judged_to, joined_judged};
ghost use Rattle.margin.specs.declared.asking.Question.TheVariants.{Figures, Book, Uses};
ghost use Rattle.runs.specs.Runs.{run_answer, run_figures, run_outcomes};
ghost use Rattle.committee.specs.Committee.{committee_answer, after_committee};
ghost use Rattle.screen.specs.Screen.{load_answer, added, after_add, total_read, limited};
ghost use Rattle.screen.specs.Screen.{limit_number, limit_total};
ghost use Rattle.felgotany.specs.code.Outcomes.{TellsAdded, TellsTotal, TellsLimit, Tells, TellsOf, TellsCall, TellsPlace, TellsList, TellsPairList};
ghost use Rattle.felgotany.specs.code.Outcomes.{TellsAsked, TellsWritten};
ghost use Rattle.tickets.specs.Asked.{tickets_in, asked_about, withdrawn_from};

use account::accounts::check;
use account::answers::{Refusal, number_of, record_of};
use account::noon::{Verdict, prompt_place};
use committee::answer_committee;
use formulas::amount::Amount;
use lists::{judge, judge_joined};
use margin::asking::Question;
use margin::lists::Judged;
use questions::held::ask_all;
use questions::noon::cover_call;
use questions::plain::{answer, needed};
use runs::answer_run;
use screen::Limited;
use tickets::ask::{Asked, ask, ask_withdrawn};
use writing::write;

// The number of a refusal, 0 where nothing is refused, and the record that it names.
#[repr(C)]
#[derive(Clone, Copy)]
pub struct Outcome {
    pub refusal: usize,
    pub record: usize,
}

fn tell(answer: Result<(), Refusal>) -> Outcome
    ensures { Tells answer result }
{
    Outcome {
        refusal: number_of(answer),
        record: record_of(answer),
    }
}

// The same of what comes back with a value.
fn tell_answer<T>(told: &Result<T, Refusal>) -> Outcome
    ensures { Tells (answer_of told.now) result }
{
    match told {
        Ok(_) => tell(Ok(())),
        Err(refusal) => tell(Err(*refusal)),
    }
}

// Whether the file is accepted.
#[unsafe(no_mangle)]
pub extern "C" fn felgotany_check(file: &[u8]) -> Outcome
    ensures { Tells (checked file.now) result }
{
    tell(check(file))
}

// How many numbers the figures of an accepted file need; 0 for a refused file.
#[unsafe(no_mangle)]
pub extern "C" fn felgotany_figures_needed(file: &[u8]) -> usize
    ensures { (result ≡ figures_need file.now) × (result ≤ longest_figures) }
{
    needed(file, Question::Figures)
}

// The figures, at the front of `out`. A refusal writes nothing.
#[unsafe(no_mangle)]
pub extern "C" fn felgotany_figures(file: &[u8], out: &mut [i64]) -> Outcome
    ensures { Tells (figures_answer file.now (length out.old)) result
        × (out.new ≡ after_figures file.now out.old) }
{
    tell(answer(file, Question::Figures, out))
}

// How many numbers the delta book of a question needs; 0 for a refused file, and where the question is not answered.
#[unsafe(no_mangle)]
pub extern "C" fn felgotany_book_needed(file: &[u8], question: usize) -> usize
    ensures { (result ≡ book_need file.now question) × (result ≤ longest_book) }
{
    needed(file, Question::Book(question))
}

// The delta book of a question, 0 to 15 for that contract or 16 for the intercontract table, at the front of `out`. A
// refusal writes nothing.
#[unsafe(no_mangle)]
pub extern "C" fn felgotany_book(file: &[u8], question: usize, out: &mut [i64]) -> Outcome
    ensures { Tells (book_answer file.now question (length out.old)) result
        × (out.new ≡ after_book file.now question out.old) }
{
    tell(answer(file, Question::Book(question), out))
}

// How many numbers the uses of a question need; 0 for a refused file, and where the question is not answered.
#[unsafe(no_mangle)]
pub extern "C" fn felgotany_uses_needed(file: &[u8], question: usize) -> usize
    ensures { (result ≡ uses_need file.now question) × (result ≤ longest_uses) }
{
    needed(file, Question::Uses(question))
}

// Who paid for what in the delta book of a question: for each step of its table, what it takes of each prompt, at the front
// of `out`. A refusal writes nothing.
#[unsafe(no_mangle)]
pub extern "C" fn felgotany_uses(file: &[u8], question: usize, out: &mut [i64]) -> Outcome
    ensures { Tells (uses_answer file.now question (length out.old)) result
        × (out.new ≡ after_uses file.now question out.old) }
{
    tell(answer(file, Question::Uses(question), out))
}

// The outcomes of all questions at once.
#[repr(C)]
#[derive(Clone, Copy)]
pub struct Outcomes {
    pub figures: Outcome,
    pub books: Outcome,
    pub uses: Outcome,
}

// All questions of a file that is checked once: the figures at the front of `figures`, and of each question the delta book in
// its place of `books` and the uses in theirs of `uses`. What is refused writes nothing.
#[unsafe(no_mangle)]
pub extern "C" fn felgotany_all(
    file: &[u8],
    figures: &mut [i64],
    books: &mut [i64],
    uses: &mut [i64],
) -> Outcomes
    ensures { (Tells (figures_answer file.now (length figures.old)) result.figures
        × (figures.new ≡ after_figures file.now figures.old))
        × ((Tells (books_answer file.now (length books.old)) result.books
        × (books.new ≡ books_after file.now books.old))
        × (Tells (all_uses_answer file.now (length uses.old)) result.uses
        × (uses.new ≡ all_uses_after file.now uses.old))) }
{
    let asked = ask_all(file, figures, books, uses);
    let first = tell(asked.figures);
    let second = tell(asked.books);
    let third = tell(asked.uses);
    Outcomes {
        figures: first,
        books: second,
        uses: third,
    }
}

// An outcome of a pair of files: of the joined account (0), the morning's file (1) or the noon's (2).
#[repr(C)]
#[derive(Clone, Copy)]
pub struct PairOutcome {
    pub file: usize,
    pub refusal: usize,
    pub record: usize,
}

fn tell_of(verdict: Verdict) -> PairOutcome
    ensures { TellsOf verdict result }
{
    let told = tell(verdict.answer);
    PairOutcome {
        file: verdict.file,
        refusal: told.refusal,
        record: told.record,
    }
}

// The figures of the joined account, at the front of `out`. A refusal writes nothing.
#[unsafe(no_mangle)]
pub extern "C" fn felgotany_joined_figures<'a>(
    morning: &'a [u8],
    noon: &'a [u8],
    out: &mut [i64],
) -> PairOutcome
    ensures { TellsOf (joined_figures morning.now noon.now (length out.old)) result
        × (out.new ≡ after_joined_figures morning.now noon.now out.old) }
{
    tell_of(questions::noon::answer(morning, noon, Question::Figures, out))
}

// The delta book of a question, of the joined account.
#[unsafe(no_mangle)]
pub extern "C" fn felgotany_joined_book<'a>(
    morning: &'a [u8],
    noon: &'a [u8],
    question: usize,
    out: &mut [i64],
) -> PairOutcome
    ensures { TellsOf (joined_book morning.now noon.now question (length out.old)) result
        × (out.new ≡ after_joined_book morning.now noon.now question out.old) }
{
    tell_of(questions::noon::answer(morning, noon, Question::Book(question), out))
}

// Who paid for what in it.
#[unsafe(no_mangle)]
pub extern "C" fn felgotany_joined_uses<'a>(
    morning: &'a [u8],
    noon: &'a [u8],
    question: usize,
    out: &mut [i64],
) -> PairOutcome
    ensures { TellsOf (joined_uses morning.now noon.now question (length out.old)) result
        × (out.new ≡ after_joined_uses morning.now noon.now question out.old) }
{
    tell_of(questions::noon::answer(morning, noon, Question::Uses(question), out))
}

// How many numbers the figures of the joined account need; 0 for a refused pair.
#[unsafe(no_mangle)]
pub extern "C" fn felgotany_joined_figures_needed<'a>(morning: &'a [u8], noon: &'a [u8]) -> usize
    ensures { (result ≡ joined_need morning.now noon.now Figures) × (result ≤ longest_figures) }
{
    questions::noon::needed(morning, noon, Question::Figures)
}

// How many numbers the delta book of a question needs; 0 for a refused pair, and where the question is not answered.
#[unsafe(no_mangle)]
pub extern "C" fn felgotany_joined_book_needed<'a>(
    morning: &'a [u8],
    noon: &'a [u8],
    question: usize,
) -> usize
    ensures { (result ≡ joined_need morning.now noon.now (Book question)) × (result ≤ longest_book) }
{
    questions::noon::needed(morning, noon, Question::Book(question))
}

// How many numbers the uses of a question need; 0 as with the book.
#[unsafe(no_mangle)]
pub extern "C" fn felgotany_joined_uses_needed<'a>(
    morning: &'a [u8],
    noon: &'a [u8],
    question: usize,
) -> usize
    ensures { (result ≡ joined_need morning.now noon.now (Uses question)) × (result ≤ longest_uses) }
{
    questions::noon::needed(morning, noon, Question::Uses(question))
}

// The outcomes of all questions at once to a pair of files.
#[repr(C)]
#[derive(Clone, Copy)]
pub struct PairOutcomes {
    pub figures: PairOutcome,
    pub books: PairOutcome,
    pub uses: PairOutcome,
}

// All questions to the joined account of a pair that is checked once, each in its place. What is refused writes nothing.
#[unsafe(no_mangle)]
pub extern "C" fn felgotany_joined_all<'a>(
    morning: &'a [u8],
    noon: &'a [u8],
    figures: &mut [i64],
    books: &mut [i64],
    uses: &mut [i64],
) -> PairOutcomes
    ensures figures { TellsOf (joined_figures morning.now noon.now (length figures.old)) result.figures
        × (figures.new ≡ after_joined_figures morning.now noon.now figures.old) }
    ensures books { TellsOf (joined_all false morning.now noon.now (length books.old)) result.books
        × (books.new ≡ after_joined_all false morning.now noon.now books.old) }
    ensures uses { TellsOf (joined_all true morning.now noon.now (length uses.old)) result.uses
        × (uses.new ≡ after_joined_all true morning.now noon.now uses.old) }
{
    let asked = questions::noon::ask_all(morning, noon, figures, books, uses);
    let first = tell_of(asked.figures);
    let second = tell_of(asked.books);
    let third = tell_of(asked.uses);
    PairOutcomes {
        figures: first,
        books: second,
        uses: third,
    }
}

// Where a contract's prompts stand: in which file, from which record on, and how many.
#[repr(C)]
#[derive(Clone, Copy)]
pub struct PromptPlace {
    pub file: usize,
    pub first: usize,
    pub records: usize,
}

#[unsafe(no_mangle)]
pub extern "C" fn felgotany_joined_prompts<'a>(
    morning: &'a [u8],
    noon: &'a [u8],
    contract: usize,
) -> PromptPlace
    ensures { TellsPlace (prompt_place morning.now noon.now contract) result }
{
    let place = prompt_place(morning, noon, contract);
    PromptPlace {
        file: place.file,
        first: place.first,
        records: place.records,
    }
}

// The call, in hundredths; 0 where there is none.
#[repr(C)]
#[derive(Clone, Copy)]
pub struct CallOutcome {
    pub outcome: PairOutcome,
    pub call: u64,
}

#[unsafe(no_mangle)]
pub extern "C" fn felgotany_call<'a>(
    morning: &'a [u8],
    noon: &'a [u8],
    last: i64,
    threshold: i64,
    collateral: i64,
) -> CallOutcome
    ensures { TellsCall (joined_call morning.now noon.now last threshold collateral) result }
{
    let made = cover_call(morning, noon, last, threshold, collateral);
    CallOutcome {
        outcome: tell_of(made.verdict),
        call: made.amount.0,
    }
}

// The figures of a run of accounts, each in its place of `figures`, with its refusal and record in its place of `outcomes`. What
// is refused as a whole writes nothing.
#[unsafe(no_mangle)]
pub extern "C" fn felgotany_run(
    accounts: &[u8],
    lengths: &[usize],
    figures: &mut [i64],
    outcomes: &mut [usize],
) -> Outcome
    ensures tells { Tells (run_answer accounts.now lengths.now (length figures.old) (length outcomes.old)) result }
    ensures figures_after { figures.new ≡ run_figures accounts.now lengths.now (length outcomes.old) figures.old }
    ensures outcomes_after { outcomes.new ≡ run_outcomes accounts.now lengths.now (length figures.old)
        outcomes.old }
{
    tell(answer_run(accounts, lengths, figures, outcomes))
}

// The risk committee's figures of a run of accounts, at the front of `out`. What is refused as a whole writes nothing.
#[unsafe(no_mangle)]
pub extern "C" fn felgotany_committee(
    accounts: &[u8],
    lengths: &[usize],
    out: &mut [i64],
) -> Outcome
    ensures { Tells (committee_answer accounts.now lengths.now (length out.old)) result
        × (out.new ≡ after_committee accounts.now lengths.now out.old) }
{
    tell(answer_committee(accounts, lengths, out))
}

// What is said of a list of spreads: the refusal and its record, both 0 where the list is judged; the verdict, 0 where it is not
// judged, 1 for a yes, 2 where a step's number is more than can be formed, 3 where it is less, 4 where a use is wrong; and that
// step.
#[repr(C)]
#[derive(Clone, Copy)]
pub struct ListOutcome {
    pub refusal: usize,
    pub record: usize,
    pub verdict: usize,
    pub step: usize,
}

fn verdict_number(judged: Result<Judged, Refusal>) -> usize
    ensures { result ≡ verdict_number judged }
{
    match judged {
        Err(_) => 0,
        Ok(Judged::Right) => 1,
        Ok(Judged::MoreThanFormed(_)) => 2,
        Ok(Judged::LessThanFormed(_)) => 3,
        Ok(Judged::WrongUse(_)) => 4,
    }
}

fn step_named(judged: Result<Judged, Refusal>) -> usize
    ensures { result ≡ step_named judged }
{
    match judged {
        Err(_) => 0,
        Ok(Judged::Right) => 0,
        Ok(Judged::MoreThanFormed(step)) => step,
        Ok(Judged::LessThanFormed(step)) => step,
        Ok(Judged::WrongUse(step)) => step,
    }
}

fn tell_list(judged: Result<Judged, Refusal>) -> ListOutcome
    ensures { TellsList judged result }
{
    let told = tell_answer(&judged);
    ListOutcome {
        refusal: told.refusal,
        record: told.record,
        verdict: verdict_number(judged),
        step: step_named(judged),
    }
}

// What is said of a list of spreads that is sent for a question: a number for each step, what each step used of each prompt, one
// step after the other, and how many prompts the list speaks of. Nothing is written.
#[unsafe(no_mangle)]
pub extern "C" fn felgotany_judge(
    file: &[u8],
    question: usize,
    prompts: usize,
    numbers: &[i64],
    uses: &[i64],
) -> ListOutcome
    ensures { TellsList (judged_to file.now question prompts numbers.now uses.now) result }
{
    tell_list(judge(file, question, prompts, numbers, uses))
}

// The same for the joined account, saying which file a refusal is about.
#[repr(C)]
#[derive(Clone, Copy)]
pub struct PairListOutcome {
    pub file: usize,
    pub list: ListOutcome,
}

#[unsafe(no_mangle)]
pub extern "C" fn felgotany_joined_judge<'a>(
    morning: &'a [u8],
    noon: &'a [u8],
    question: usize,
    prompts: usize,
    numbers: &[i64],
    uses: &[i64],
) -> PairListOutcome
    ensures { TellsPairList (joined_judged morning.now noon.now question prompts numbers.now uses.now) result }
{
    let said = judge_joined(morning, noon, question, prompts, numbers, uses);
    PairListOutcome {
        file: said.file,
        list: tell_list(said.judged),
    }
}

// Whether the first `named` of the bytes that an order screen lends are an accepted account file. Nothing is written.
#[unsafe(no_mangle)]
pub extern "C" fn felgotany_screen_load(lent: &[u8], named: usize) -> Outcome
    ensures { Tells (load_answer lent.now named) result }
{
    tell(screen::load(lent, named))
}

// The refusal of a ticket that is to be added and its record, both 0 where it is added; and how many of the lent bytes hold the
// account file then, 0 where it is refused.
#[repr(C)]
#[derive(Clone, Copy)]
pub struct AddOutcome {
    pub refusal: usize,
    pub record: usize,
    pub named: usize,
}

fn tell_added(added: Result<usize, Refusal>) -> AddOutcome
    ensures { TellsAdded added result }
{
    let told = tell_answer(&added);
    AddOutcome {
        refusal: told.refusal,
        record: told.record,
        named: added.unwrap_or(0),
    }
}

// A ticket put last among its contract's rows, in the lent bytes. A refusal changes none of them.
#[unsafe(no_mangle)]
pub extern "C" fn felgotany_screen_add(lent: &mut [u8], named: usize, ticket: &[u8]) -> AddOutcome
    ensures { TellsAdded (added lent.old named ticket.now) result
        × (lent.new ≡ after_add lent.old named ticket.now) }
{
    tell_added(screen::add(lent, named, ticket))
}

// The refusal of an account whose total is read and its record, both 0 where there is none; and the total, in hundredths, 0 where it
// is refused.
#[repr(C)]
#[derive(Clone, Copy)]
pub struct TotalOutcome {
    pub refusal: usize,
    pub record: usize,
    pub total: u64,
}

fn tell_total(total: Result<Amount, Refusal>) -> TotalOutcome
    ensures { TellsTotal total result }
{
    let told = tell_answer(&total);
    TotalOutcome {
        refusal: told.refusal,
        record: told.record,
        total: total.map_or(0, |amount| amount.0),
    }
}

// The total of the account that the lent bytes hold. Nothing is written.
#[unsafe(no_mangle)]
pub extern "C" fn felgotany_screen_total(lent: &[u8], named: usize) -> TotalOutcome
    ensures { TellsTotal (total_read lent.now named) result }
{
    tell_total(screen::total(lent, named))
}

// The refusal of a ticket that is asked about and its record, both 0 where there is none; the answer, 0 where it is refused, 1 for a yes,
// 2 where the total with the ticket is over the limit; and that total, in hundredths.
#[repr(C)]
#[derive(Clone, Copy)]
pub struct LimitOutcome {
    pub refusal: usize,
    pub record: usize,
    pub answer: usize,
    pub total: u64,
}

fn limit_number(limited: Result<Limited, Refusal>) -> usize
    ensures { result ≡ limit_number limited }
{
    match limited {
        Err(_) => 0,
        Ok(Limited::Within(_)) => 1,
        Ok(Limited::Over(_)) => 2,
    }
}

fn limit_total(limited: Result<Limited, Refusal>) -> u64
    ensures { result ≡ limit_total limited }
{
    match limited {
        Err(_) => 0,
        Ok(Limited::Within(total)) => total.0,
        Ok(Limited::Over(total)) => total.0,
    }
}

fn tell_limit(limited: Result<Limited, Refusal>) -> LimitOutcome
    ensures { TellsLimit limited result }
{
    let told = tell_answer(&limited);
    LimitOutcome {
        refusal: told.refusal,
        record: told.record,
        answer: limit_number(limited),
        total: limit_total(limited),
    }
}

// Whether the total with a ticket stays at or below a limit. Nothing is written.
#[unsafe(no_mangle)]
pub extern "C" fn felgotany_screen_limit(
    lent: &[u8],
    named: usize,
    ticket: &[u8],
    limit: i64,
) -> LimitOutcome
    ensures { TellsLimit (limited lent.now named ticket.now limit) result }
{
    tell_limit(screen::limit(lent, named, ticket, limit))
}

// What a ticket or a withdrawal is told: of which ticket, from 1, or 0 for the file; the refusal and its record; and the total of the
// margins before and after, in hundredths, both 0 where something is refused.
#[repr(C)]
#[derive(Clone, Copy)]
pub struct TicketOutcome {
    pub ticket: usize,
    pub refusal: usize,
    pub record: usize,
    pub before: u64,
    pub after: u64,
}

fn tell_asked(asked: Asked) -> TicketOutcome
    ensures { TellsAsked asked result }
{
    let told = tell(asked.answer);
    TicketOutcome {
        ticket: asked.ticket,
        refusal: told.refusal,
        record: told.record,
        before: asked.before.0,
        after: asked.after.0,
    }
}

// What one more ticket does to an account with the tickets put in so far, 96 bytes each.
#[unsafe(no_mangle)]
pub extern "C" fn felgotany_ticket(file: &[u8], tickets: &[u8], ticket: &[u8]) -> TicketOutcome
    ensures { TellsAsked (asked_about file.now (tickets_in tickets.now) ticket.now) result }
{
    tell_asked(ask(file, tickets, ticket))
}

// What it does to take the latest ticket back.
#[unsafe(no_mangle)]
pub extern "C" fn felgotany_withdraw(file: &[u8], tickets: &[u8]) -> TicketOutcome
    ensures { TellsAsked (withdrawn_from file.now (tickets_in tickets.now)) result }
{
    tell_asked(ask_withdrawn(file, tickets))
}

// The refusal of a list of entries, the place of the entry at fault, and how many bytes are written.
#[repr(C)]
#[derive(Clone, Copy)]
pub struct WriteOutcome {
    pub refusal: usize,
    pub entry: usize,
    pub written: usize,
}

// The account file of entries in any order, 96 bytes each, at the front of `out`. A refusal writes nothing.
#[unsafe(no_mangle)]
pub extern "C" fn felgotany_write(entries: &[u8], out: &mut [u8]) -> WriteOutcome
    ensures { TellsWritten entries.now out.old result out.new }
{
    let written = write(entries, out);
    let told = tell_answer(&written);
    WriteOutcome {
        refusal: told.refusal,
        entry: told.record,
        written: written.unwrap_or(0),
    }
}
