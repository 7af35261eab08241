// Runs of sound records: a contract's own record, the prompts, rows or interprompt spreads of a contract, or intercontract spreads, that get no
// refusal. A record that stops a run is asked about by itself.
ghost use Rattle.std.specs.Prelude.{◌≡◌, ℕ, true, not, ◌||◌, ◌+◌, ◌≤◌, ◌<◌, ◌-◌, min, length};
ghost use Rattle.exact.specs.Lists.{any};
ghost use Rattle.record.specs.Layout.{record_bytes, day, two_legs, legs_of};
ghost use Rattle.account.specs.Check.{kind_falls, contract_falls, same_leg, most_rows};
ghost use Rattle.account.specs.PartNumbers.{parts};
ghost use Rattle.account.specs.code.Notes.{no_contract};
ghost use Rattle.account.specs.code.Passing.{DaysListed, has_day, TiersListed, leg_unlisted_in, on_one_side, legs_meet};
ghost use Rattle.account.specs.code.Passing.{contract_passes, prompt_passes, row_passes, spread_passes, entry_passes, RunTo, Begins, Runs};
ghost use Rattle.account.specs.Records.{record_at, record_count, records};

use crate::conversions::is_other_row;
use crate::limits::{MOST_ENTRIES, MOST_PROMPTS, MOST_ROWS, MOST_SPREADS};
use crate::listed::no_contract;
use crate::notes::noted;
use crate::order::{contract_falls, day_not_above, kind_falls, number_not_above, tier_falls};
use crate::parts::{ENTRIES, PROMPTS, ROWS, SPREADS, part_at};
use crate::stretches::{record_count, whole_at, whole_before};
use record::bytes::RECORD_BYTES;
use record::fields::{
    contract, day, kind, leg_count_in, leg_place_in, leg_side_in, leg_tier_in, second_contract,
    tier,
};
use record::refusals::{sound_contract, sound_entry, sound_prompt, sound_row, sound_spread};

// A tier is a byte.
const TIER_BYTES: usize = 256;

fn short_day(r: &[u8]) -> u32
    ensures { result ≡ day r.now }
{
    day(r) as u32
}

// The days of a contract's prompts, and 0 beyond them.
fn days_of(prompts: &[u8]) -> [u32; MOST_PROMPTS]
    ensures { DaysListed (records prompts.now) result }
{
    let mut days = [0u32; MOST_PROMPTS];
    for j in 0..record_count(prompts).min(MOST_PROMPTS) {
        days[j] = short_day(whole_at(prompts, j));
    }
    days
}

// Whether a day is among them. The loop has no way out, so that many days are compared at once.
fn has_day(days: &[u32; MOST_PROMPTS], d: u32) -> bool
    ensures { result ≡ has_day days.now d }
{
    let mut found = false;
    for day in days {
        found |= *day == d;
    }
    found
}

// Which tiers have a prompt.
fn tiers_of(prompts: &[u8]) -> [bool; TIER_BYTES]
    ensures { TiersListed (records prompts.now) result }
{
    let mut listed = [false; TIER_BYTES];
    for j in 0..record_count(prompts) {
        listed[tier(whole_at(prompts, j))] = true;
    }
    listed
}

fn two_legs(r: &[u8]) -> bool
    requires { record_bytes ≤ length r.now }
    ensures { result ≡ two_legs r.now }
{
    leg_count_in(r) == 2
}

fn leg_unlisted(listed: &[bool; TIER_BYTES], r: &[u8], leg: usize) -> bool
    requires { (leg ≤ 2) × (record_bytes ≤ length r.now) }
    ensures { result ≡ leg_unlisted_in listed.now r.now leg }
{
    !listed[leg_tier_in(r, leg)]
}

// Of a whole spread. Here and below there is no way out before the end.
fn some_leg_unlisted(listed: &[bool; TIER_BYTES], r: &[u8]) -> bool
    requires { record_bytes ≤ length r.now }
    ensures { result ≡ any (leg_unlisted_in listed.now r.now) (legs_of r.now) }
{
    leg_unlisted(listed, r, 0)
        | (leg_unlisted(listed, r, 1) | (!two_legs(r) & leg_unlisted(listed, r, 2)))
}

fn on_one_side(r: &[u8], i: usize, j: usize) -> bool
    requires { (i ≤ 2) × ((j ≤ 2) × (record_bytes ≤ length r.now)) }
    ensures { result ≡ on_one_side r.now i j }
{
    leg_side_in(r, i) == leg_side_in(r, j)
}

fn are_alike(r: &[u8], i: usize, j: usize) -> bool
    requires { (i ≤ 2) × ((j ≤ 2) × (record_bytes ≤ length r.now)) }
    ensures { result ≡ same_leg r.now i j }
{
    leg_place_in(r, i) == leg_place_in(r, j)
}

// Two legs are alike, or all are on one side. The bytes of a third leg that is none are like no leg's.
fn legs_meet(r: &[u8]) -> bool
    requires { record_bytes ≤ length r.now }
    ensures { result ≡ legs_meet r.now }
{
    are_alike(r, 0, 1)
        | (are_alike(r, 0, 2)
            | (are_alike(r, 1, 2) | (on_one_side(r, 0, 1) & (two_legs(r) | on_one_side(r, 1, 2)))))
}

// After the record before it, which may be none. The tests end as soon as one fails.
fn contract_passes(before: &[u8], r: &[u8]) -> bool
    ensures { result ≡ contract_passes before.now r.now }
{
    !kind_falls(before, r) && !number_not_above(before, r) && sound_contract(r)
}

fn prompt_passes(before: &[u8], r: &[u8], c: usize) -> bool
    ensures { result ≡ prompt_passes c before.now r.now }
{
    sound_prompt(r, c) & !(day_not_above(before, r) | tier_falls(before, r))
}

// In another currency than the margin's only where `other` lets it be.
fn row_passes(days: &[u32; MOST_PROMPTS], r: &[u8], c: usize, other: bool) -> bool
    ensures { result ≡ row_passes c days.now other r.now }
{
    sound_row(r, c, other) & has_day(days, short_day(r))
}

// The tests end as soon as one fails.
fn spread_passes(listed: &[bool; TIER_BYTES], r: &[u8], c: usize) -> bool
    ensures { result ≡ spread_passes c listed.now r.now }
{
    RECORD_BYTES <= r.len() && sound_spread(r, c) && !legs_meet(r) && !some_leg_unlisted(listed, r)
}

fn entry_passes(counts: &[u16], r: &[u8]) -> bool
    ensures { result ≡ entry_passes counts.now r.now }
{
    let c = contract(r);
    let other = second_contract(r);
    sound_entry(r) & !(no_contract(counts, c) | (no_contract(counts, other) | (c == other)))
}

// The first number from `k` on that does not pass, or `end`.
fn run_to<F: Fn(usize) -> bool>(k: usize, end: usize, passes: F) -> usize
    requires within { k ≤ end }
    requires callable { (j : ℕ) → k ≤ j → j < end → F.pre passes j }
    ensures low { k ≤ result }
    ensures high { result ≤ end }
    ensures each { (j : ℕ) → k ≤ j → j < result → F.post passes j true }
{
    for i in k..end {
        if !passes(i) {
            return i;
        }
    }
    end
}

// Up to where records from `k` on may be of a part that has `n` records and may have `most`.
fn room_to(k: usize, count: usize, n: usize, most: usize) -> usize
    requires { (k ≤ count) × (most ≤ most_rows) }
    ensures { result ≡ min (k + (most - n)) count }
{
    k + most.saturating_sub(n).min(count - k)
}

fn prompts_from(file: &[u8], first: &[u16], counts: &[u16], k: usize, c: usize) -> usize
    requires { Begins 2 file.now counts.now k c }
    ensures { Runs file.now first.now counts.now k result }
{
    let end = room_to(
        k,
        record_count(file),
        noted(counts, PROMPTS + c),
        MOST_PROMPTS,
    );
    run_to(
        k,
        end,
        |i| prompt_passes(whole_at(file, i - 1), whole_at(file, i), c),
    )
}

// A run that begins with a row in the margin currency goes on over such rows alone.
fn rows_from(file: &[u8], first: &[u16], counts: &[u16], k: usize, c: usize) -> usize
    requires { Begins 3 file.now counts.now k c }
    ensures { Runs file.now first.now counts.now k result }
{
    let end = room_to(k, record_count(file), noted(counts, ROWS + c), MOST_ROWS);
    let days = days_of(part_at(file, first, counts, PROMPTS + c));
    let other = is_other_row(whole_at(file, k));
    run_to(k, end, |i| row_passes(&days, whole_at(file, i), c, other))
}

fn spreads_from(file: &[u8], first: &[u16], counts: &[u16], k: usize, c: usize) -> usize
    requires { Begins 4 file.now counts.now k c }
    ensures { Runs file.now first.now counts.now k result }
{
    let end = room_to(
        k,
        record_count(file),
        noted(counts, SPREADS + c),
        MOST_SPREADS,
    );
    let listed = tiers_of(part_at(file, first, counts, PROMPTS + c));
    run_to(k, end, |i| spread_passes(&listed, whole_at(file, i), c))
}

// Intercontract spreads have no order among themselves.
fn entries_from(file: &[u8], first: &[u16], counts: &[u16], k: usize) -> usize
    requires { (k < record_count file.now) × (length counts.now ≡ parts) }
    ensures { Runs file.now first.now counts.now k result }
{
    if kind_falls(whole_before(file, k), whole_at(file, k)) {
        return k;
    }
    let end = room_to(k, record_count(file), noted(counts, ENTRIES), MOST_ENTRIES);
    run_to(k, end, |i| entry_passes(counts, whole_at(file, i)))
}

// Whether a record of contract `c` may begin or go on a run.
fn may_run(counts: &[u16], before: &[u8], r: &[u8], c: usize) -> bool
    requires { c < 256 }
    ensures { result ≡ not
        (no_contract counts.now c || (kind_falls before.now r.now || contract_falls before.now r.now)) }
{
    !(no_contract(counts, c) | (kind_falls(before, r) | contract_falls(before, r)))
}

// The first record from record `k` on that does not pass as a prompt, a row or an interprompt spread of record `k`'s contract, or as an
// intercontract spread, or the record after a contract's own that passes: `k` itself where it is none of these.
pub(crate) fn passes_from(file: &[u8], first: &[u16], counts: &[u16], k: usize) -> usize
    requires { (k < record_count file.now) × (length counts.now ≡ parts) }
    ensures { Runs file.now first.now counts.now k result }
{
    let r = whole_at(file, k);
    let n = kind(r);
    if n == 1 {
        return if contract_passes(whole_before(file, k), r) {
            k + 1
        } else {
            k
        };
    }
    if k == 0 {
        return k;
    }
    if n == 5 {
        return entries_from(file, first, counts, k);
    }
    let c = contract(r);
    if !may_run(counts, whole_at(file, k - 1), r, c) {
        return k;
    }
    match n {
        2 => prompts_from(file, first, counts, k, c),
        3 => rows_from(file, first, counts, k, c),
        4 => spreads_from(file, first, counts, k, c),
        _ => k,
    }
}
