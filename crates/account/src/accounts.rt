// An account as one thing: which contracts there are, and where the records of each kind of each contract stand, in one
// file or in two. Nothing above this module knows files, surveys or offsets.
ghost use Rattle.std.specs.Prelude.{List, [], ◌≡◌, cond, ℕ, ◌+◌, ◌%◌, ◌≤◌, ◌<◌, length, get_or, set, take};
ghost use Rattle.exact.specs.Lists.{sum};
ghost use Rattle.account.specs.Check.{most_contracts};
ghost use Rattle.account.specs.Checked.{rates_checked, checked};
ghost use Rattle.account.specs.Lawful.{Recorded};
ghost use Rattle.account.specs.PartNumbers.{parts, entry_part, row_part};
ghost use Rattle.account.specs.Joined.{account_of};
ghost use Rattle.record.specs.Layout.{most_contract};
ghost use Rattle.account.specs.Records as Records;
ghost use Rattle.account.specs.code.Standing as Standing;
ghost use Rattle.account.specs.code.Standing.{Places, Stands, PartOf, ContractPart, CheckedBy};
ghost use Rattle.account.specs.code.Standing.{EitherTo, Flagged, listed_in, Numbered, JoinedBy, AloneBy};
ghost use Rattle.account.specs.code.Surveyed.{Tallied};

use crate::answers::Refusal;
use crate::check::{Survey, length_answer, note_records};
use crate::conversions::rows_answer;
use crate::notes::noted;
use crate::parts::{CONTRACTS, ENTRIES, OWN, PARTS, RATES, ROWS};
use crate::rates::rates_of;
use crate::stretches::{anew, record_count, stretch};
use std::array;

// An account: how many records it has, its contracts' numbers in order, which of them the noon file supplies, and of each
// part where it begins in its file and how many records it has. Only the check and a join of two checked files make one:
// its fields are of this crate alone.
#[derive(Clone, Copy)]
pub struct Account {
    pub(crate) records: usize,
    pub(crate) contracts: usize,
    pub(crate) numbers: [u8; CONTRACTS],
    pub(crate) noon: [bool; CONTRACTS],
    pub(crate) first: [u16; PARTS],
    pub(crate) counts: [u16; PARTS],
}

// How many records the account has.
pub fn record_total(account: Account) -> usize
    ensures { result ≡ account.records }
{
    account.records
}

// How many contracts it lists.
pub fn contract_total(account: Account) -> usize
    ensures { result ≡ account.contracts }
{
    account.contracts
}

// How many records part `v` has.
pub fn part_total(account: Account, v: usize) -> usize
    ensures { result ≡ get_or account.counts v 0 }
{
    noted(&account.counts, v)
}

// The records of part `v` of an account, as they stand in whichever file supplies them.
pub fn part<'a>(morning: &'a [u8], noon: &'a [u8], account: Account, v: usize) -> &'a [u8]
    requires { Stands morning.now noon.now account }
    ensures { PartOf (account_of morning.now noon.now) v result.now }
{
    placed_part(morning, noon, account, v)
}

// The same where the rates are still to be looked at.
pub(crate) fn placed_part<'a>(
    morning: &'a [u8],
    noon: &'a [u8],
    account: Account,
    v: usize,
) -> &'a [u8]
    requires { Places morning.now noon.now account }
    ensures { PartOf (account_of morning.now noon.now) v result.now }
{
    if RATES < v {
        return &morning[..0];
    }
    let late = (v < ENTRIES) & account.noon[v % CONTRACTS];
    supplied(morning, noon, late, account.first[v], account.counts[v])
}

// Where the parts of a contract stand: whether the noon file supplies it, and of each part where it begins and how many
// records it has.
#[derive(Clone, Copy)]
pub struct Whereabouts {
    pub(crate) late: bool,
    pub(crate) own: u16,
    pub(crate) own_count: u16,
    pub(crate) prompts: u16,
    pub(crate) prompt_count: u16,
    pub(crate) rows: u16,
    pub(crate) row_count: u16,
    pub(crate) spreads: u16,
    pub(crate) spread_count: u16,
}

// Its own record, where it is listed.
pub fn own_part<'a>(morning: &'a [u8], noon: &'a [u8], w: Whereabouts) -> &'a [u8]
    ensures { ContractPart morning.now noon.now 1 w result.now }
{
    supplied(morning, noon, w.late, w.own, w.own_count)
}

// Its prompts.
pub fn prompts_part<'a>(morning: &'a [u8], noon: &'a [u8], w: Whereabouts) -> &'a [u8]
    ensures { ContractPart morning.now noon.now 2 w result.now }
{
    supplied(morning, noon, w.late, w.prompts, w.prompt_count)
}

// Its rows.
pub fn rows_part<'a>(morning: &'a [u8], noon: &'a [u8], w: Whereabouts) -> &'a [u8]
    ensures { ContractPart morning.now noon.now 3 w result.now }
{
    supplied(morning, noon, w.late, w.rows, w.row_count)
}

// Its interprompt spreads.
pub fn spreads_part<'a>(morning: &'a [u8], noon: &'a [u8], w: Whereabouts) -> &'a [u8]
    ensures { ContractPart morning.now noon.now 4 w result.now }
{
    supplied(morning, noon, w.late, w.spreads, w.spread_count)
}

// No records: the noon file of an account that stands in one file.
pub fn nothing_of(file: &[u8]) -> &[u8]
    ensures { result.now ≡ [] }
{
    &file[..0]
}

// Whichever file supplies a contract.
pub(crate) fn supplier<'a>(morning: &'a [u8], noon: &'a [u8], later: bool) -> &'a [u8]
    ensures { result.now ≡ cond later noon.now morning.now }
{
    if later { noon } else { morning }
}

// The records from record `first` on of whichever file supplies a contract.
pub(crate) fn supplied<'a>(
    morning: &'a [u8],
    noon: &'a [u8],
    later: bool,
    first: u16,
    count: u16,
) -> &'a [u8]
    ensures { result.now ≡ Records.stretch (cond later noon.now morning.now) first count }
{
    stretch(
        supplier(morning, noon, later),
        usize::from(first),
        usize::from(count),
    )
}

// Whether a file lists contract `c`, by its counts.
fn lists(counts: &[u16], c: usize) -> bool
    requires { c < most_contracts }
    ensures { result ≡ Standing.lists counts.now c }
{
    noted(counts, OWN + c) != 0
}

// What is noted of a part in whichever file supplies it. By itself, so that both notes are read before one is chosen, and several at once.
fn either(late: bool, morning: u16, noon: u16) -> u16
    ensures { result ≡ cond late noon morning }
{
    if late { noon } else { morning }
}

// The same of the parts of one kind, in the place of the morning's notes.
fn either_kind(
    notes: &mut [u16; PARTS],
    noon: &[u16; PARTS],
    late: &[bool; CONTRACTS],
    start: usize,
)
    requires { (start % most_contracts ≡ 0) × (start < entry_part) }
    ensures { (morning : List ℕ) → EitherTo morning noon.now late.now start notes.old
        → EitherTo morning noon.now late.now (start + most_contracts) notes.new }
{
    for c in 0..CONTRACTS {
        notes[start + c] = either(late[c], notes[start + c], noon[start + c]);
    }
}

// The same of every kind that the noon file may supply.
fn either_notes(
    morning: &[u16; PARTS],
    noon: &[u16; PARTS],
    late: &[bool; CONTRACTS],
) -> [u16; PARTS]
    requires { length morning.now ≡ parts }
    ensures { EitherTo morning.now noon.now late.now entry_part result }
{
    let mut notes = *morning;
    for kind in 0..ENTRIES / CONTRACTS {
        either_kind(&mut notes, noon, late, CONTRACTS * kind);
    }
    notes
}

// Which contracts a file lists, by its counts.
fn flags(counts: &[u16]) -> [bool; CONTRACTS]
    ensures { Flagged counts.now result }
{
    array::from_fn(|c| lists(counts, c))
}

#[derive(Clone, Copy)]
struct ContractNumbers {
    count: usize,
    number: [u8; CONTRACTS],
}

// Their numbers in order, the first `count`, where there are at most `most`.
fn numbers_of(counts: &[u16], most: usize) -> ContractNumbers
    requires { length (listed_in counts.now) ≤ most }
    ensures { Numbered counts.now result.count result.number }
{
    let mut count = 0;
    let mut number = [0u8; CONTRACTS];
    for c in 0..CONTRACTS {
        if count == most {
            break;
        }
        if lists(counts, c) {
            number[count] = c as u8;
            count += 1;
        }
    }
    ContractNumbers { count, number }
}

// How many records there are in all parts.
fn records_in(counts: &[u16]) -> usize
    requires { length counts.now ≤ parts }
    ensures { result ≡ sum counts.now }
{
    counts.iter().map(|n| usize::from(*n)).sum()
}

// The joined account of two files, by what the check handed out of them.
pub(crate) fn join(morning: Survey, noon: Survey) -> Account
    ensures { JoinedBy morning noon result }
{
    // Named first: read where they stand they are copied once more.
    let morning_first = morning.first;
    let morning_counts = morning.counts;
    let noon_first = noon.first;
    let noon_counts = noon.counts;
    let late = flags(&noon_counts);
    let first = either_notes(&morning_first, &noon_first, &late);
    let counts = either_notes(&morning_counts, &noon_counts, &late);
    let ContractNumbers { count, number } = numbers_of(&counts, CONTRACTS);
    Account {
        records: records_in(&counts),
        contracts: count,
        numbers: number,
        noon: late,
        first,
        counts,
    }
}

// An account of so many records and at most so many contracts that stands in one file, by what is noted of its parts: no noon file
// supplies anything.
pub(crate) fn in_one_file(
    first: &[u16; PARTS],
    counts: &[u16; PARTS],
    contracts: usize,
    records: usize,
) -> Account
    requires { length (listed_in counts.now) ≤ contracts }
    ensures { AloneBy first.now counts.now records result }
{
    let ContractNumbers { count, number } = numbers_of(counts, contracts);
    Account {
        records,
        contracts: count,
        numbers: number,
        noon: [false; CONTRACTS],
        first: *first,
        counts: *counts,
    }
}

// How many records stand before the rows.
fn before_rows(account: Account) -> usize
    requires { length account.counts ≡ parts }
    ensures { result ≡ sum (take row_part account.counts) }
{
    records_in(&account.counts[..ROWS])
}

// 14 and 15, "for rows in file order", of an account whose records are accepted.
pub(crate) fn conversions_answer<'a>(
    morning: &'a [u8],
    noon: &'a [u8],
    account: Account,
) -> Result<(), Refusal>
    requires { Places morning.now noon.now account × Recorded (account_of morning.now noon.now) }
    ensures { result ≡ rates_checked (account_of morning.now noon.now) }
{
    let t = rates_of(placed_part(morning, noon, account, RATES));
    let mut k = before_rows(account);
    for c in 0..CONTRACTS {
        let rows = placed_part(morning, noon, account, ROWS + c);
        rows_answer(t, rows, k)?;
        k += record_count(rows);
    }
    Ok(())
}

// The same of one file, by what is noted of it.
pub(crate) fn rates_answer(
    file: &[u8],
    first: &[u16; PARTS],
    counts: &[u16; PARTS],
    contracts: usize,
    converts: bool,
) -> Result<(), Refusal>
    requires { Tallied file.now (Ok tt) contracts converts first.now counts.now }
    ensures { result ≡ checked file.now }
{
    if converts {
        let account = in_one_file(first, counts, contracts, record_count(file));
        return conversions_answer(file, &file[..0], account);
    }
    Ok(())
}

// What a file is refused for, or its account.
pub fn check_file(file: &[u8]) -> Result<Account, Refusal>
    ensures { CheckedBy file.now result }
{
    let whole = anew(file);
    length_answer(whole)?;
    let mut first = [0u16; PARTS];
    let mut counts = [0u16; PARTS];
    let noted = note_records(whole, &mut first, &mut counts)?;
    rates_answer(whole, &first, &counts, noted.contracts, noted.converts)?;
    Ok(in_one_file(&first, &counts, noted.contracts, record_count(whole)))
}

// The verdict on any bytes. It needs no account where all rows are in the margin currency.
pub fn check(file: &[u8]) -> Result<(), Refusal>
    ensures { result ≡ checked file.now }
{
    let whole = anew(file);
    length_answer(whole)?;
    let mut first = [0u16; PARTS];
    let mut counts = [0u16; PARTS];
    let noted = note_records(whole, &mut first, &mut counts)?;
    rates_answer(whole, &first, &counts, noted.contracts, noted.converts)
}
