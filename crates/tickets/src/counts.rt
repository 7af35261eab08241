// What the check of a ticket goes by: where the records of the file stand, and how many rows each contract has with the tickets put in
// so far.
ghost use Rattle.std.specs.Prelude.{◌≡◌, ◌||◌, List, [], ℕ, ◌+◌, ◌≤◌, ◌<◌, get_or, take};
ghost use Rattle.exact.specs.Lists.{sum};
ghost use Rattle.record.specs.Layout.{Record, kind, contract, day, most_contract};
ghost use Rattle.account.specs.Check.{most_contracts, most_records};
ghost use Rattle.account.specs.code.Notes.{no_contract, no_day};
ghost use Rattle.account.specs.Parts.{prompts_of};
ghost use Rattle.account.specs.Records.{records};
ghost use Rattle.account.specs.code.Standing.{Stands, Filled, CheckedBy};
ghost use Rattle.account.specs.Joined.{account_of};
ghost use Rattle.account.specs.PartNumbers.{part};
ghost use Rattle.tickets.specs.code.Counts.{CountsOf, CountedIn, SmallCounts, row_fault_by, OneMore, OneLess};
ghost use Rattle.tickets.specs.Ticket.{place, with_tickets, ticket_checked};

use account::accounts::{Account, contract_total, part, part_total, record_total};
use account::answers::{Refusal, refusal_of};
use account::check::MOST_RECORDS;
use account::conversions::row_answer;
use account::limits::MOST_ROWS;
use account::listed::no_day;
use account::parts::{CONTRACTS, OWN, PROMPTS, RATES, ROWS};
use account::rates::rates_of;
use record::bytes::RECORD_BYTES;
use record::fields::{contract, day, kind};
use record::refusals::{field_outside, unused_byte};

// The account of the file, how many of its records are of kinds 1 and 2, how many rows each contract has, and how many tickets there
// are. Its fields are of this module alone.
#[derive(Clone, Copy)]
pub struct Counts {
    account: Account,
    above: usize,
    rows: [usize; CONTRACTS],
    tickets: usize,
}

// The account of the file.
pub(crate) fn account_of(counts: Counts) -> Account
    ensures { result ≡ counts.account }
{
    counts.account
}

// How many tickets there are.
pub(crate) fn tickets_of(counts: Counts) -> usize
    ensures { result ≡ counts.tickets }
{
    counts.tickets
}

// How many records each contract has of a kind, by the kind's first part.
fn totals_of(account: Account, first: usize) -> [usize; CONTRACTS]
    requires { first ≤ part 4 0 }
    ensures { Filled most_contracts (λ c. get_or account.counts (first + c) 0) result }
{
    let mut totals = [0usize; CONTRACTS];
    for (c, total) in totals.iter_mut().enumerate() {
        *total = part_total(account, first + c);
    }
    totals
}

fn number_at(numbers: &[usize], i: usize) -> usize
    ensures { result ≡ get_or numbers.now i 0 }
{
    numbers.get(i).copied().unwrap_or(0)
}

// The first `n` numbers, added up.
fn sum_of(numbers: &[usize], n: usize) -> usize
    requires { (n ≤ 256) × ((k : ℕ) → get_or numbers.now k 0 ≤ most_records) }
    ensures { result ≡ sum (take n numbers.now) }
{
    let mut total = 0;
    for i in 0..n {
        total += number_at(numbers, i);
    }
    total
}

// The counts of a file without tickets.
pub fn counts_of<'a>(file: &'a [u8], none: &'a [u8], account: Account) -> Counts
    requires { (none.now ≡ []) × CheckedBy file.now (Ok account) }
    ensures { CountsOf file.now [] result }
{
    let prompts = totals_of(account, PROMPTS);
    let above = contract_total(account) + sum_of(&prompts, CONTRACTS);
    Counts {
        account,
        above,
        rows: totals_of(account, ROWS),
        tickets: 0,
    }
}

// The place of a ticket by its byte 1: after kinds 1 and 2 and every row whose byte 1 is not above its own.
fn place_of(counts: Counts, c: usize) -> usize
    requires { SmallCounts counts × (c < 256) }
    ensures { result ≡ counts.above + sum (take (c + 1) counts.rows) }
{
    counts.above + sum_of(&counts.rows, c + 1)
}

// 7: the row's contract is not listed, or none of the contract's prompts is on its day.
fn missing<'a>(file: &'a [u8], none: &'a [u8], account: Account, row: &[u8]) -> bool
    requires { Stands file.now none.now account × (contract row.now ≤ most_contract) }
    ensures { result ≡ no_contract account.counts (contract row.now)
        || no_day (prompts_of (contract row.now) (account_of file.now none.now)) (day row.now) }
{
    let c = contract(row);
    let prompts = part(file, none, account, PROMPTS + c);
    (part_total(account, OWN + c) == 0) | no_day(prompts, day(row))
}

// The first refusal of a row, 5 to 9, or 0.
fn row_fault<'a>(file: &'a [u8], none: &'a [u8], account: Account, rows: usize, row: &[u8]) -> usize
    requires { Stands file.now none.now account × (kind row.now ≡ 3) }
    ensures { result ≡ row_fault_by
        (no_contract account.counts (contract row.now)
        || no_day (prompts_of (contract row.now) (account_of file.now none.now)) (day row.now)) rows
        row.now }
{
    if unused_byte(row) {
        5
    } else if field_outside(row) {
        6
    } else if missing(file, none, account, row) {
        7
    } else if MOST_ROWS <= rows {
        9
    } else {
        0
    }
}

// What a ticket is told.
pub fn check_ticket<'a>(
    file: &'a [u8],
    none: &'a [u8],
    counts: Counts,
    ticket: &[u8],
) -> Result<(), Refusal>
    requires { (none.now ≡ []) × CountedIn file.now counts }
    ensures { (tickets : List Record) → CountsOf file.now tickets counts → result ≡ ticket_checked (with_tickets file.now tickets)
        ticket.now }
{
    if ticket.len() != RECORD_BYTES {
        return Err(Refusal::CutRecord);
    }
    let c = contract(ticket);
    let k = place_of(counts, c);
    if kind(ticket) != 3 {
        return Err(Refusal::UnknownKind(k));
    }
    let account = counts.account;
    let number = row_fault(file, none, account, number_at(&counts.rows, c), ticket);
    if number != 0 {
        return refusal_of(number, k);
    }
    let rates = part(file, none, account, RATES);
    row_answer(rates_of(rates), ticket, k)?;
    if MOST_RECORDS <= record_total(account) + counts.tickets {
        return Err(Refusal::TooLong);
    }
    Ok(())
}

// The place at which a ticket would stand.
pub fn ticket_place(file: &[u8], counts: Counts, ticket: &[u8]) -> usize
    requires { CountedIn file.now counts }
    ensures { (tickets : List Record) → CountsOf file.now tickets counts
        → result ≡ place ticket.now (records (with_tickets file.now tickets)) }
{
    place_of(counts, contract(ticket))
}

// The counts with one row more of contract `c`.
pub(crate) fn one_more(mut counts: Counts, c: usize) -> Counts
    requires { SmallCounts counts × (c ≤ most_contract) }
    ensures { OneMore c counts result }
{
    counts.rows[c] += 1;
    counts.tickets += 1;
    counts
}

// The counts with one row less of contract `c`.
pub(crate) fn one_less(mut counts: Counts, c: usize) -> Counts
    requires { SmallCounts counts × ((c ≤ most_contract) × ((1 ≤ get_or counts.rows c 0) × (1 ≤ counts.tickets))) }
    ensures { OneLess c counts result }
{
    counts.rows[c] -= 1;
    counts.tickets -= 1;
    counts
}
