// The check of the written file, record by record, where the entries stand: the k-th record is the k-th entry of the order. Only the
// prompts of one contract and the rates are put together.
ghost use Rattle.std.specs.Prelude.{◌≡◌, false, List, ◌+◌, ◌*◌, ◌≤◌, ◌<◌, length, get_or};
ghost use Rattle.record.specs.Layout.{Record, kind, most_currency};
ghost use Rattle.record.specs.Within.{RateWithin};
ghost use Rattle.account.specs.Accepted.{Each};
ghost use Rattle.account.specs.Check.{too_long, cut_record, most_prompts};
ghost use Rattle.account.specs.Checked.{rates_checked, checked};
ghost use Rattle.account.specs.Conversions.{row_answer, Row};
ghost use Rattle.account.specs.PartNumbers.{part, parts};
ghost use Rattle.account.specs.code.Notes.{before_at};
ghost use Rattle.account.specs.code.Rates.{RatesOf, HoldsRates};
ghost use Rattle.account.specs.Records.{records, stretch, record_count};
ghost use Rattle.writing.specs.code.Held.{names_prompts, asked_of, HeldNotes, CanChange, fault_held, RatesHeld};
ghost use Rattle.writing.specs.Order.{Ordered};
ghost use Rattle.writing.specs.Written.{written};

use crate::filling::{entry_at, fill};
use account::answers::{Refusal, refusal_of};
use account::check::{note_first, note_one};
use account::conversions::row_answer;
use account::fault::fault;
use account::limits::MOST_PROMPTS;
use account::notes::{noted, part_of};
use account::parts::{CONTRACTS, PARTS, PROMPTS, RATES};
use account::rates::{CURRENCIES, Rates, rates_of};
use account::stretches::record_count;
use record::bytes::RECORD_BYTES;
use record::fields::{contract, kind};

// A number that no contract has.
const NO_CONTRACT: usize = PARTS;

const PROMPT_BYTES: usize = MOST_PROMPTS * RECORD_BYTES;

// Currencies other than the margin's have a rate each.
const MOST_RATES: usize = CURRENCIES - 1;

fn entry_before<'a>(entries: &'a [u8], order: &[u16], k: usize) -> &'a [u8]
    requires { Ordered entries.now order.now × (k < record_count entries.now) }
    ensures { result.now ≡ before_at (written entries.now) k }
{
    if k == 0 {
        &entries[..0]
    } else {
        entry_at(entries, order, k - 1)
    }
}

fn names_prompts(r: &[u8]) -> bool
    ensures { result ≡ names_prompts r.now }
{
    let k = kind(r);
    ((k == 3) | (k == 4)) & (contract(r) < CONTRACTS)
}

// The contract whose prompts a record names.
fn asked_of(r: &[u8]) -> usize
    ensures { result ≡ asked_of r.now }
{
    if names_prompts(r) {
        contract(r)
    } else {
        NO_CONTRACT
    }
}

// The prompts of contract `c` in the place of those of contract `held`.
fn hold(
    entries: &[u8],
    order: &[u16],
    first: &[u16],
    counts: &[u16],
    held: usize,
    c: usize,
    prompts: &mut [u8],
)
    requires { Ordered entries.now order.now × CanChange (written entries.now) first.now counts.now prompts.old held c }
    ensures { HeldNotes (written entries.now) first.now counts.now prompts.new c }
{
    if c != held {
        let v = PROMPTS + c;
        fill(entries, order, noted(first, v), noted(counts, v), prompts);
    }
}

// The fault of a record, by the prompts of contract `c`.
fn fault_by(counts: &[u16], prompts: &[u8], c: usize, before: &[u8], r: &[u8]) -> usize
    requires { (c ≤ parts) × ((get_or counts.now (part 2 c) 0 ≤ most_prompts) × (length prompts.now ≡ most_prompts * 96)) }
    ensures { result ≡ fault_held counts.now prompts.now c before.now r.now }
{
    let size = noted(counts, PROMPTS + c) * RECORD_BYTES;
    fault(counts, &prompts[..size], before, r)
}

// The rates, `n` records from record `k` on.
fn rates_in(entries: &[u8], order: &[u16], k: usize, n: usize) -> Rates
    requires { Ordered entries.now order.now × ((n ≤ most_currency) × (k + n ≤ record_count entries.now)) }
    ensures { RatesOf (records (stretch (written entries.now) k n)) result }
{
    let mut rates = [0u8; MOST_RATES * RECORD_BYTES];
    fill(entries, order, k, n, &mut rates);
    let size = n * RECORD_BYTES;
    rates_of(&rates[..size])
}

// 14 and 15 of record `k`: only a row gets either.
fn answer_at(t: Rates, r: &[u8], k: usize) -> Result<(), Refusal>
    requires { (kind r.now ≡ 3 → Row r.now) × HoldsRates t }
    ensures { (rates : List Record) → RatesOf rates t → Each RateWithin rates → result ≡ row_answer rates k r.now }
{
    if kind(r) == 3 {
        return row_answer(t, r, k);
    }
    Ok(())
}

// 14 and 15, "for rows in file order", of a file whose records are accepted.
fn conversions_written(entries: &[u8], order: &[u16], t: Rates) -> Result<(), Refusal>
    requires { Ordered entries.now order.now × RatesHeld (written entries.now) t }
    ensures { result ≡ rates_checked (records (written entries.now)) }
{
    for k in 0..record_count(entries) {
        answer_at(t, entry_at(entries, order, k), k)?;
    }
    Ok(())
}

// The verdict on the written file.
pub(crate) fn check_written(entries: &[u8], order: &[u16]) -> Result<(), Refusal>
    requires { Ordered entries.now order.now × ((too_long entries.now ≡ false) × (cut_record entries.now ≡ false)) }
    ensures { result ≡ checked (written entries.now) }
{
    let mut first = [0u16; PARTS];
    let mut counts = [0u16; PARTS];
    let mut prompts = [0u8; PROMPT_BYTES];
    let mut held = NO_CONTRACT;
    for k in 0..record_count(entries) {
        let r = entry_at(entries, order, k);
        let c = asked_of(r);
        hold(entries, order, &first, &counts, held, c, &mut prompts);
        let number = fault_by(&counts, &prompts, c, entry_before(entries, order, k), r);
        if number != 0 {
            return refusal_of(number, k);
        }
        let v = part_of(r);
        note_first(&mut first, &counts, v, k);
        note_one(&mut counts, v);
        held = c;
    }
    let t = rates_in(entries, order, noted(&first, RATES), noted(&counts, RATES));
    conversions_written(entries, order, t)
}
