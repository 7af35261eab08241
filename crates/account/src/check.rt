// The check of the records of an account file, 1 to 9, and what it hands out with its verdict: where the parts of an accepted file
// stand.
ghost use Rattle.std.specs.Prelude.{◌≡◌, ◌+◌, ◌≤◌, ◌<◌, length, get_or, set, replicate};
ghost use Rattle.exact.specs.Lists.{one_if};
ghost use Rattle.account.specs.Check.{most_records};
ghost use Rattle.account.specs.code.Notes.{one_more, start_noted, fault_at};
ghost use Rattle.account.specs.PartNumbers.{parts};
ghost use Rattle.account.specs.Records.{record_count};
ghost use Rattle.account.specs.Parts.{of_kind};
ghost use Rattle.account.specs.code.Passing.{Notable, NotedTo, StepBy};
ghost use Rattle.account.specs.code.Surveyed.{length_checked, Surveyed, Empty, NotedBy};

use crate::answers::{Refusal, refusal_of};
use crate::conversions::is_other_row;
use crate::fault::fault_at;
use crate::notes::{noted, part_of};
use crate::parts::PARTS;
use crate::passing::passes_from;
use crate::stretches::{record_count, whole_at};
use record::bytes::RECORD_BYTES;
use record::fields::kind;

// "At most 640 records".
pub const MOST_RECORDS: usize = 640;

const MOST_BYTES: usize = MOST_RECORDS * RECORD_BYTES;

// A verdict and, of an accepted file, how many contracts it lists, of each part where it begins and how many records it has,
// and whether any row is in another currency than the margin's.
#[derive(Clone, Copy)]
pub struct Survey {
    pub answer: Result<(), Refusal>,
    pub contracts: usize,
    pub first: [u16; PARTS],
    pub counts: [u16; PARTS],
    pub converts: bool,
}

fn refused(answer: Result<(), Refusal>) -> Survey
    ensures { Empty answer result }
{
    Survey {
        answer,
        contracts: 0,
        first: [0; PARTS],
        counts: [0; PARTS],
        converts: false,
    }
}

pub fn note_first(first: &mut [u16], counts: &[u16], v: usize, k: usize)
    requires { (v < length first.old) × (k < most_records) }
    ensures { first.new ≡ start_noted first.old counts.now v k }
{
    if noted(counts, v) == 0 {
        first[v] = k as u16;
    }
}

pub fn note_one(counts: &mut [u16], v: usize)
    requires { (v < length counts.old) × (get_or counts.old v 0 < most_records) }
    ensures { counts.new ≡ one_more counts.old v }
{
    counts[v] += 1;
}

fn note_more(counts: &mut [u16], v: usize, n: usize)
    requires { (v < length counts.old) × ((get_or counts.old v 0 ≤ most_records) × (n ≤ most_records)) }
    ensures { counts.new ≡ set counts.old v (get_or counts.old v 0 + n) }
{
    counts[v] += n as u16;
}

// Record `k` noted with the records after it up to record `next`, all of its part.
fn note_to(file: &[u8], first: &mut [u16], counts: &mut [u16], k: usize, next: usize)
    requires { Notable file.now first.old counts.old k
        × ((fault_at file.now first.old counts.old k ≡ 0) × ((k < next) × (next ≤ record_count file.now))) }
    ensures { NotedTo file.now first.old counts.old k next first.new counts.new }
{
    let v = part_of(whole_at(file, k));
    note_first(first, counts, v, k);
    note_one(counts, v);
    note_more(counts, v, next - (k + 1));
}

fn one_if_contract(r: &[u8]) -> usize
    ensures { result ≡ one_if (of_kind 1 r.now) }
{
    usize::from(kind(r) == 1)
}

// A step of the check: the record to go on at and how many contracts were passed.
#[derive(Clone, Copy)]
pub(crate) struct Step {
    pub(crate) next: usize,
    pub(crate) contracts: usize,
}

// Past record `k`: a run of sound records from it on, or it alone; or the number of its fault.
fn go_on(file: &[u8], first: &mut [u16], counts: &mut [u16], k: usize) -> Result<Step, usize>
    requires { Notable file.now first.old counts.old k }
    ensures { StepBy file.now first.old counts.old k result first.new counts.new }
{
    let next = passes_from(file, first, counts, k);
    if k < next {
        note_to(file, first, counts, k, next);
        return Ok(Step {
            next,
            contracts: one_if_contract(whole_at(file, k)),
        });
    }
    let number = fault_at(file, first, counts, k);
    if number != 0 {
        return Err(number);
    }
    note_to(file, first, counts, k, k + 1);
    Ok(Step {
        next: k + 1,
        contracts: one_if_contract(whole_at(file, k)),
    })
}

// All steps: how many contracts were passed, and whether a row in another currency was. A step that passes one begins with one.
#[derive(Clone, Copy)]
pub(crate) struct Noted {
    pub(crate) contracts: usize,
    pub(crate) converts: bool,
}

// The records noted up to the first with a fault, or all of them.
pub(crate) fn note_records(
    file: &[u8],
    first: &mut [u16; PARTS],
    counts: &mut [u16; PARTS],
) -> Result<Noted, Refusal>
    requires { (length_checked file.now ≡ Ok tt) × ((first.old ≡ replicate parts 0) × (counts.old ≡ replicate parts 0)) }
    ensures { NotedBy file.now result first.new counts.new }
{
    let count = record_count(file);
    let mut contracts = 0;
    let mut converts = false;
    let mut k = 0;
    // A while: a step passes a run of records.
    while k < count {
        match go_on(file, first, counts, k) {
            Ok(passed) => {
                contracts += passed.contracts;
                converts = converts | is_other_row(whole_at(file, k));
                k = passed.next;
            }
            Err(number) => {
                return refusal_of(number, k).and(Ok(Noted {
                    contracts,
                    converts,
                }));
            }
        }
    }
    Ok(Noted {
        contracts,
        converts,
    })
}

// 1 and 2, of the length of a file.
pub(crate) fn length_answer(file: &[u8]) -> Result<(), Refusal>
    ensures { result ≡ length_checked file.now }
{
    if MOST_BYTES < file.len() {
        return Err(Refusal::TooLong);
    }
    if file.len() % RECORD_BYTES != 0 {
        return Err(Refusal::CutRecord);
    }
    Ok(())
}

// What any bytes are refused for, or what is noted of them, with the parts of an accepted file noted in lent memory.
pub(crate) fn note_file(
    file: &[u8],
    first: &mut [u16; PARTS],
    counts: &mut [u16; PARTS],
) -> Result<Noted, Refusal>
    requires { (first.old ≡ replicate parts 0) × (counts.old ≡ replicate parts 0) }
    ensures { NotedBy file.now result first.new counts.new }
{
    length_answer(file)?;
    note_records(file, first, counts)
}

// The same, handed out.
pub fn take_survey(file: &[u8]) -> Survey
    ensures { Surveyed file.now result }
{
    let mut first = [0u16; PARTS];
    let mut counts = [0u16; PARTS];
    // A return: a survey that a match gives is copied once more.
    let noted = match note_file(file, &mut first, &mut counts) {
        Ok(noted) => noted,
        Err(refusal) => return refused(Err(refusal)),
    };
    Survey {
        answer: Ok(()),
        contracts: noted.contracts,
        first,
        counts,
        converts: noted.converts,
    }
}
