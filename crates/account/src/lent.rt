// An account as it is lent: what it notes in one array, which is read where it stands. Handed on by value an account is copied at each call,
// and each copy waits for the one before.
ghost use Rattle.std.specs.Prelude.{◌≡◌, ◌≤◌, length, get_or, OnErr};
ghost use Rattle.record.specs.Layout.{most_contract};
ghost use Rattle.account.specs.Joined.{account_of};
ghost use Rattle.account.specs.code.Lent.{account_in, note_count, Lendable, LentBy};
ghost use Rattle.account.specs.code.Standing.{Stands, PartOf, WhereOf};

use crate::accounts::{Account, Whereabouts, in_one_file, rates_answer, supplied};
use crate::answers::Refusal;
use crate::check::{length_answer, note_records};
use crate::notes::noted;
use crate::parts::{CONTRACTS, ENTRIES, OWN, PARTS, PROMPTS, RATES, ROWS, SPREADS};
use crate::stretches::{anew, record_count};
use std::array;

// Where what is noted begins: of each part where it begins in its file, and how many records it has; the contracts' numbers in order; for
// each contract 1 where the noon file supplies it; how many records the account has, and how many contracts.
const COUNTS: usize = PARTS;

const NUMBERS: usize = COUNTS + PARTS;

const LATE: usize = NUMBERS + CONTRACTS;

const RECORDS: usize = LATE + CONTRACTS;

const LISTED: usize = RECORDS + 1;

pub const NOTES: usize = LISTED + 1;

// An account put in an array to be lent.
pub fn lend(account: Account, notes: &mut [u16; NOTES])
    requires { Lendable account × (length notes.old ≡ note_count) }
    ensures { account_in notes.new ≡ account }
{
    notes[..COUNTS].copy_from_slice(&account.first);
    notes[COUNTS..NUMBERS].copy_from_slice(&account.counts);
    let numbers: [u16; CONTRACTS] = array::from_fn(|c| u16::from(account.numbers[c]));
    let late: [u16; CONTRACTS] = array::from_fn(|c| u16::from(account.noon[c]));
    notes[NUMBERS..LATE].copy_from_slice(&numbers);
    notes[LATE..RECORDS].copy_from_slice(&late);
    notes[RECORDS] = account.records as u16;
    notes[LISTED] = account.contracts as u16;
}

// What a file is refused for, or its account, which is lent: where it is only asked, nothing hands it out by value. A refusal lends nothing.
pub fn lend_file(file: &[u8], notes: &mut [u16; NOTES]) -> Result<(), Refusal>
    ensures lent { LentBy file.now result notes.new }
    ensures refused { OnErr result (notes.new ≡ notes.old) }
{
    let whole = anew(file);
    length_answer(whole)?;
    let mut first = [0u16; PARTS];
    let mut counts = [0u16; PARTS];
    let noted = note_records(whole, &mut first, &mut counts)?;
    rates_answer(whole, &first, &counts, noted.contracts, noted.converts)?;
    lend(
        in_one_file(&first, &counts, noted.contracts, record_count(whole)),
        notes,
    );
    Ok(())
}

// How many records the account has.
pub fn record_total(account: &[u16; NOTES]) -> usize
    ensures { result ≡ (account_in account.now).records }
{
    usize::from(account[RECORDS])
}

// How many contracts it lists.
pub fn contract_total(account: &[u16; NOTES]) -> usize
    ensures { result ≡ (account_in account.now).contracts }
{
    usize::from(account[LISTED])
}

// The number of the i-th contract.
pub fn contract_number(account: &[u16; NOTES], i: usize) -> usize
    ensures { result ≡ get_or (account_in account.now).numbers i 0 }
{
    noted(&account[NUMBERS..LATE], i)
}

// How many records part `v` has.
pub fn part_total(account: &[u16; NOTES], v: usize) -> usize
    ensures { result ≡ get_or (account_in account.now).counts v 0 }
{
    noted(&account[COUNTS..NUMBERS], v)
}

// The records of part `v`, as they stand in whichever file supplies them.
pub fn part<'a>(morning: &'a [u8], noon: &'a [u8], account: &[u16; NOTES], v: usize) -> &'a [u8]
    requires { Stands morning.now noon.now (account_in account.now) }
    ensures { PartOf (account_of morning.now noon.now) v result.now }
{
    if RATES < v {
        return &morning[..0];
    }
    let late = (v < ENTRIES) & (account[LATE + v % CONTRACTS] != 0);
    supplied(morning, noon, late, account[v], account[COUNTS + v])
}

// Where the parts of contract `c` stand.
pub fn whereabouts_of(account: &[u16; NOTES], c: usize) -> Whereabouts
    requires { c ≤ most_contract }
    ensures { WhereOf (account_in account.now) c result }
{
    Whereabouts {
        late: account[LATE + c] != 0,
        own: account[OWN + c],
        own_count: account[COUNTS + OWN + c],
        prompts: account[PROMPTS + c],
        prompt_count: account[COUNTS + PROMPTS + c],
        rows: account[ROWS + c],
        row_count: account[COUNTS + ROWS + c],
        spreads: account[SPREADS + c],
        spread_count: account[COUNTS + SPREADS + c],
    }
}
