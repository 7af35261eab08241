// The order screen's calls (request 2026-14): bytes that the screen lends hold an account file with its tickets, and each call checks
// them again. Nothing is kept between calls.
#![tactic(auto)]

ghost use Rattle.std.specs.Prelude.{◌≡◌};
ghost use Rattle.screen.specs.Screen.{load_answer, added, after_add, total_read, weighed, limited};
ghost use Rattle.screen.specs.code.Held.{placed_in, asked_in, total_in};

use crate::inserting::insert;
use account::accounts::{check, check_file, nothing_of};
use account::answers::Refusal;
use account::lent::{NOTES, lend_file};
use exact::signed::magnitude;
use formulas::amount::Amount;
use margin::everything::total_lent;
use record::bytes::RECORD_BYTES;
use tickets::counts::{check_ticket, counts_of, ticket_place};
use tickets::kept::{keep, kept_total, put};

mod inserting; // inserting.rt: a record put among the bytes of a file, in place

// The total with a ticket, within the limit or over it.
#[derive(Clone, Copy)]
pub enum Limited {
    Within(Amount),
    Over(Amount),
}

// Whether the first `named` of the lent bytes are an accepted account file.
pub fn load(lent: &[u8], named: usize) -> Result<(), Refusal>
    ensures { result ≡ load_answer lent.now named }
{
    if lent.len() < named {
        Err(Refusal::TooFewBytes)
    } else {
        check(&lent[..named])
    }
}

// What a ticket is refused for, or the byte of its file at which it would stand.
fn place_order(file: &[u8], ticket: &[u8]) -> Result<usize, Refusal>
    ensures { result ≡ placed_in file.now ticket.now }
{
    let account = check_file(file)?;
    let none = nothing_of(file);
    let counts = counts_of(file, none, account);
    check_ticket(file, none, counts, ticket)?;
    Ok(ticket_place(file, counts, ticket) * RECORD_BYTES)
}

// A ticket put last among its contract's rows, in the lent bytes: the later ones are moved up. How many bytes hold the file then; a
// refusal changes none of them.
pub fn add(lent: &mut [u8], named: usize, ticket: &[u8]) -> Result<usize, Refusal>
    ensures { (result ≡ added lent.old named ticket.now)
        × (lent.new ≡ after_add lent.old named ticket.now) }
{
    if lent.len() < named {
        return Err(Refusal::TooFewBytes);
    }
    let at = place_order(&lent[..named], ticket)?;
    if lent.len() - named < RECORD_BYTES {
        return Err(Refusal::TooFewBytes);
    }
    insert(lent, at, named, ticket);
    Ok(named + RECORD_BYTES)
}

fn total_in(file: &[u8]) -> Result<Amount, Refusal>
    ensures { result ≡ total_in file.now }
{
    let mut notes = [0u16; NOTES];
    lend_file(file, &mut notes)?;
    Ok(total_lent(file, nothing_of(file), &notes))
}

// The total of the account that the first `named` of the lent bytes hold.
pub fn total(lent: &[u8], named: usize) -> Result<Amount, Refusal>
    ensures { result ≡ total_read lent.now named }
{
    if lent.len() < named {
        return Err(Refusal::TooFewBytes);
    }
    total_in(&lent[..named])
}

// What a ticket is refused for, or the total of its file with it, by the kept account: the rows are gone through once, and the ticket is
// one row more.
fn ask_order(file: &[u8], ticket: &[u8]) -> Result<Amount, Refusal>
    ensures { result ≡ asked_in file.now ticket.now }
{
    let account = check_file(file)?;
    let mut kept = keep(file, account);
    put(file, &mut kept, ticket)?;
    Ok(kept_total(file, kept))
}

// A yes or a no, with the total.
fn weigh(limit: u64, total: Amount) -> Limited
    ensures { result ≡ weighed limit total.0 }
{
    if total.0 <= limit {
        Limited::Within(total)
    } else {
        Limited::Over(total)
    }
}

// Whether the total with a ticket stays at or below a limit, and that total. Nothing is written.
pub fn limit(lent: &[u8], named: usize, ticket: &[u8], limit: i64) -> Result<Limited, Refusal>
    ensures { result ≡ limited lent.now named ticket.now limit }
{
    if limit < 0 {
        return Err(Refusal::LimitBelowZero);
    }
    if lent.len() < named {
        return Err(Refusal::TooFewBytes);
    }
    let total = ask_order(&lent[..named], ticket)?;
    Ok(weigh(magnitude(limit), total))
}
