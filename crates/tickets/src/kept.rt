// A kept account: where the records of a file stand, and what the rows of each contract come to, with the tickets put in so far. It
// answers without going through the rows.
ghost use Rattle.std.specs.Prelude.{◌≡◌, List, [], ◌∷◌, ◌++◌, ◌≤◌, length, Ok, IfErr};
ghost use Rattle.record.specs.Layout.{Record};
ghost use Rattle.account.specs.Answers.{and_then};
ghost use Rattle.account.specs.Records.{records, cut};
ghost use Rattle.account.specs.code.Standing.{CheckedBy};
ghost use Rattle.margin.specs.Figures.{account_total};
ghost use Rattle.margin.specs.code.Lent.{EverythingOf};
ghost use Rattle.margin.specs.code.Positions.{PositionsOf};
ghost use Rattle.margin.specs.Questions.{answer_over, after_over, need_over, most_for};
ghost use Rattle.tickets.specs.code.Kept.{KeptBy, Keeps, Takes, Leaves, AddedTo, WithdrawnFrom};
ghost use Rattle.tickets.specs.Ticket.{with_tickets};

use crate::counts::{Counts, account_of, check_ticket, counts_of, one_less, one_more, tickets_of};
use account::accounts::{Account, nothing_of, part};
use account::answers::Refusal;
use account::parts::{OWN, PROMPTS, RATES};
use account::rates::rates_of;
use account::stretches::record_at;
use formulas::amount::Amount;
use formulas::rows::{days_of, with_rows, without_rows};
use margin::asking::{Question, answer_from, needed_over};
use margin::everything::{Everything, everything_from, total_from};
use margin::positions::{Positions, positions_over};
use record::fields::{contract, unit};

// Only the check of a file and the calls of this module make one: its fields are of this module alone.
#[derive(Clone, Copy)]
pub struct Kept {
    counts: Counts,
    positions: Positions,
}

// The account that the check of an accepted file handed out, kept, without tickets.
pub fn keep(file: &[u8], account: Account) -> Kept
    requires { CheckedBy file.now (Ok account) }
    ensures { KeptBy file.now [] result }
{
    let none = nothing_of(file);
    Kept {
        counts: counts_of(file, none, account),
        positions: positions_over(file, none, account),
    }
}

// The positions with one row more, where they stand.
fn with_row<'a>(file: &'a [u8], none: &'a [u8], kept: &mut Kept, row: &[u8])
    requires { (none.now ≡ []) × Takes file.now kept.old row.now }
    ensures { (kept.new.counts ≡ kept.old.counts) × ((tickets : List Record) → KeptBy file.now tickets kept.old
        → PositionsOf (records (with_tickets file.now (tickets ++ row.now ∷ []))) kept.new.positions) }
{
    let account = account_of(kept.counts);
    let c = contract(row);
    let own = part(file, none, account, OWN + c);
    let prompts = part(file, none, account, PROMPTS + c);
    let rates = rates_of(part(file, none, account, RATES));
    let at = kept.positions.at[c];
    kept.positions.at[c] = with_rows(at, days_of(prompts), rates, unit(own) as u64, row);
    kept.positions.records += 1;
}

// The positions without the latest row, where they stand.
fn without_row<'a>(file: &'a [u8], none: &'a [u8], kept: &mut Kept, row: &[u8])
    requires { (none.now ≡ []) × Leaves file.now kept.old row.now }
    ensures { (kept.new.counts ≡ kept.old.counts) × ((tickets : List Record) → KeptBy file.now (tickets ++ row.now ∷ []) kept.old
        → PositionsOf (records (with_tickets file.now tickets)) kept.new.positions) }
{
    let account = account_of(kept.counts);
    let c = contract(row);
    let own = part(file, none, account, OWN + c);
    let prompts = part(file, none, account, PROMPTS + c);
    let rates = rates_of(part(file, none, account, RATES));
    let at = kept.positions.at[c];
    kept.positions.at[c] = without_rows(at, days_of(prompts), rates, unit(own) as u64, row);
    kept.positions.records -= 1;
}

// One ticket more, put in where the account is kept. A refusal changes nothing.
pub fn put(file: &[u8], kept: &mut Kept, ticket: &[u8]) -> Result<(), Refusal>
    requires { Keeps file.now kept.old }
    ensures added { AddedTo file.now kept.old ticket.now (and_then result (Ok kept.new)) }
    ensures as_it_was { IfErr result (λ _. kept.new ≡ kept.old) }
{
    let none = nothing_of(file);
    check_ticket(file, none, kept.counts, ticket)?;
    with_row(file, none, kept, ticket);
    kept.counts = one_more(kept.counts, contract(ticket));
    Ok(())
}

// One ticket more, put last among its contract's rows. The account that is handed in stays as it was.
pub fn add(file: &[u8], kept: Kept, ticket: &[u8]) -> Result<Kept, Refusal>
    requires { Keeps file.now kept }
    ensures { AddedTo file.now kept ticket.now result }
{
    let mut more = kept;
    put(file, &mut more, ticket)?;
    Ok(more)
}

// The latest ticket withdrawn where the account is kept: `tickets` holds those put in so far, one after the other. A refusal changes nothing.
pub(crate) fn take_back(file: &[u8], tickets: &[u8], kept: &mut Kept) -> Result<(), Refusal>
    requires { KeptBy file.now (cut kept.old.counts.tickets tickets.now) kept.old }
    ensures withdrawn { WithdrawnFrom file.now tickets.now kept.old (and_then result (Ok kept.new)) }
    ensures as_it_was { IfErr result (λ _. kept.new ≡ kept.old) }
{
    let count = tickets_of(kept.counts);
    if count == 0 {
        return Err(Refusal::NoTicketLeft);
    }
    let ticket = record_at(tickets, count - 1);
    without_row(file, nothing_of(file), kept, ticket);
    kept.counts = one_less(kept.counts, contract(ticket));
    Ok(())
}

// The latest ticket withdrawn: `tickets` holds those put in so far, one after the other. The account that is handed in stays as it was.
pub fn withdraw(file: &[u8], tickets: &[u8], kept: Kept) -> Result<Kept, Refusal>
    requires { KeptBy file.now (cut kept.counts.tickets tickets.now) kept }
    ensures { WithdrawnFrom file.now tickets.now kept result }
{
    let mut less = kept;
    take_back(file, tickets, &mut less)?;
    Ok(less)
}

// The total of the margins.
pub fn kept_total(file: &[u8], kept: Kept) -> Amount
    requires { Keeps file.now kept }
    ensures { (tickets : List Record) → KeptBy file.now tickets kept → result.0 ≡ account_total (records (with_tickets file.now tickets)) }
{
    total_from(
        file,
        nothing_of(file),
        account_of(kept.counts),
        kept.positions,
    )
}

// A question's answer, at the front of `out`. A refusal writes nothing.
pub fn kept_answer(
    file: &[u8],
    kept: Kept,
    question: Question,
    out: &mut [i64],
) -> Result<(), Refusal>
    requires { Keeps file.now kept }
    ensures { (tickets : List Record) → KeptBy file.now tickets kept
        → (result ≡ answer_over (records (with_tickets file.now tickets)) question (length out.old))
        × (out.new ≡ after_over (records (with_tickets file.now tickets)) question out.old) }
{
    answer_from(
        file,
        nothing_of(file),
        account_of(kept.counts),
        kept.positions,
        question,
        out,
    )
}

// How many numbers the answer of a question has, 0 where it is not answered.
pub fn kept_needed(file: &[u8], kept: Kept, question: Question) -> usize
    requires { Keeps file.now kept }
    ensures { (((tickets : List Record) → KeptBy file.now tickets kept
        → result ≡ need_over (records (with_tickets file.now tickets)) question)) × (result ≤ most_for question) }
{
    needed_over(file, nothing_of(file), account_of(kept.counts), question)
}

// The figures, and the books and uses of all questions.
pub fn kept_all(
    file: &[u8],
    kept: Kept,
    figures: &mut [i64],
    books: &mut [i64],
    uses: &mut [i64],
) -> Everything
    requires { Keeps file.now kept }
    ensures { (tickets : List Record) → KeptBy file.now tickets kept → EverythingOf (records (with_tickets file.now tickets))
        figures.old books.old uses.old result figures.new books.new uses.new }
{
    everything_from(
        file,
        nothing_of(file),
        account_of(kept.counts),
        kept.positions,
        figures,
        books,
        uses,
    )
}
