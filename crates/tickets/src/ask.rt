// What a dealer asks, over plain bytes: the margin before and after one ticket more, and before and after the latest is withdrawn.
ghost use Rattle.std.specs.Prelude.{◌≡◌, [], length};
ghost use Rattle.tickets.specs.Asked.{tickets_in, of, refused_by, asked_about, withdrawn_from};
ghost use Rattle.tickets.specs.code.Held.{HeldWith};
ghost use Rattle.tickets.specs.code.Kept.{KeptBy};

use crate::kept::{Kept, keep, kept_total, put, take_back};
use account::accounts::check_file;
use account::answers::Refusal;
use account::stretches::record_at;
use formulas::amount::Amount;
use record::bytes::RECORD_BYTES;

// What is told, and of which ticket, from 1; 0 is the file.
#[derive(Clone, Copy)]
pub struct Ticketed {
    pub ticket: usize,
    pub answer: Result<(), Refusal>,
}

// The same with the total of the margins before and after; both 0 where something is refused.
#[derive(Clone, Copy)]
pub struct Asked {
    pub ticket: usize,
    pub answer: Result<(), Refusal>,
    pub before: Amount,
    pub after: Amount,
}

// A file with its tickets: how many there are, and the account kept.
#[derive(Clone, Copy)]
pub struct Holding {
    pub count: usize,
    pub kept: Kept,
}

fn refused(told: Ticketed) -> Asked
    ensures { result ≡ refused_by told }
{
    Asked {
        ticket: told.ticket,
        answer: told.answer,
        before: Amount(0),
        after: Amount(0),
    }
}

fn refused_with(ticket: usize, refusal: Refusal) -> Asked
    ensures { result ≡ refused_by (of ticket (Err refusal)) }
{
    refused(Ticketed {
        ticket,
        answer: Err(refusal),
    })
}

// How many tickets there are: what is left at the end is one too.
fn ticket_count(tickets: &[u8]) -> usize
    ensures { result ≡ length (tickets_in tickets.now) }
{
    tickets.len().div_ceil(RECORD_BYTES)
}

// Tickets in turn, up to the first that is refused.
fn put_in(file: &[u8], kept: Kept, tickets: &[u8]) -> Result<Holding, Ticketed>
    requires { KeptBy file.now [] kept }
    ensures { HeldWith file.now (tickets_in tickets.now) result }
{
    let count = ticket_count(tickets);
    let mut held = kept;
    for i in 0..count {
        if let Err(refusal) = put(file, &mut held, record_at(tickets, i)) {
            return Err(Ticketed {
                ticket: i + 1,
                answer: Err(refusal),
            });
        }
    }
    Ok(Holding { count, kept: held })
}

fn ask_kept(file: &[u8], kept: Kept, tickets: &[u8], ticket: &[u8]) -> Asked
    requires { KeptBy file.now [] kept }
    ensures { result ≡ asked_about file.now (tickets_in tickets.now) ticket.now }
{
    match &put_in(file, kept, tickets) {
        Err(told) => refused(*told),
        Ok(held) => {
            let mut more = held.kept;
            match put(file, &mut more, ticket) {
                Err(refusal) => refused_with(held.count + 1, refusal),
                Ok(()) => Asked {
                    ticket: held.count + 1,
                    answer: Ok(()),
                    before: kept_total(file, held.kept),
                    after: kept_total(file, more),
                },
            }
        }
    }
}

// The margin of a file with the tickets put in so far, before and after one more. A refusal is the file's own, or that of the first ticket
// that is refused.
pub fn ask(file: &[u8], tickets: &[u8], ticket: &[u8]) -> Asked
    ensures { result ≡ asked_about file.now (tickets_in tickets.now) ticket.now }
{
    match check_file(file) {
        Ok(account) => ask_kept(file, keep(file, account), tickets, ticket),
        Err(refusal) => refused_with(0, refusal),
    }
}

fn withdraw_kept(file: &[u8], kept: Kept, tickets: &[u8]) -> Asked
    requires { KeptBy file.now [] kept }
    ensures { result ≡ withdrawn_from file.now (tickets_in tickets.now) }
{
    match &put_in(file, kept, tickets) {
        Err(told) => refused(*told),
        Ok(held) => {
            let mut less = held.kept;
            match take_back(file, tickets, &mut less) {
                Err(refusal) => refused_with(held.count, refusal),
                Ok(()) => Asked {
                    ticket: held.count,
                    answer: Ok(()),
                    before: kept_total(file, held.kept),
                    after: kept_total(file, less),
                },
            }
        }
    }
}

// The margin of a file with the tickets put in so far, before and after the latest is withdrawn.
pub fn ask_withdrawn(file: &[u8], tickets: &[u8]) -> Asked
    ensures { result ≡ withdrawn_from file.now (tickets_in tickets.now) }
{
    match check_file(file) {
        Ok(account) => withdraw_kept(file, keep(file, account), tickets),
        Err(refusal) => refused_with(0, refusal),
    }
}
