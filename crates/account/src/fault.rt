// The first refusal of a record, 3 to 9 in that order, or 0.
ghost use Rattle.std.specs.Prelude.{◌≡◌, ◌<◌, eqb};
ghost use Rattle.account.specs.code.Notes.{fault_by, fault_at};
ghost use Rattle.account.specs.Records.{records, record_count};

use crate::limits::over_limit;
use crate::listed::unlisted;
use crate::order::{kind_falls, out_of_order};
use crate::parts::{PROMPTS, part_at};
use crate::stretches::{whole_at, whole_before};
use record::fields::contract;
use record::refusals::{field_outside, unknown_kind, unused_byte};

// `prompts` are those of the record's contract, `before` is the record before.
pub fn fault(counts: &[u16], prompts: &[u8], before: &[u8], r: &[u8]) -> usize
    ensures { result ≡ fault_by counts.now (records prompts.now) before.now r.now }
{
    if unknown_kind(r) {
        return 3;
    }
    if kind_falls(before, r) {
        return 4;
    }
    if unused_byte(r) {
        return 5;
    }
    if field_outside(r) {
        return 6;
    }
    if unlisted(counts, prompts, r) {
        return 7;
    }
    if out_of_order(before, r) {
        return 8;
    }
    if over_limit(counts, r) {
        return 9;
    }
    0
}

// Whether a record gets none of them. There is no way out before the end, so that all is tested at once.
fn faultless(counts: &[u16], prompts: &[u8], before: &[u8], r: &[u8]) -> bool
    ensures { result ≡ eqb (fault_by counts.now (records prompts.now) before.now r.now) 0 }
{
    let by_itself = unknown_kind(r) | (unused_byte(r) | field_outside(r));
    let by_the_others = unlisted(counts, prompts, r)
        | (out_of_order(before, r) | over_limit(counts, r));
    !(kind_falls(before, r) | (by_itself | by_the_others))
}

// Of record `k`, from the notes of the records before it.
pub(crate) fn fault_at(file: &[u8], first: &[u16], counts: &[u16], k: usize) -> usize
    requires { k < record_count file.now }
    ensures { result ≡ fault_at file.now first.now counts.now k }
{
    let r = whole_at(file, k);
    let prompts = part_at(file, first, counts, PROMPTS + contract(r));
    let before = whole_before(file, k);
    if faultless(counts, prompts, before, r) {
        return 0;
    }
    fault(counts, prompts, before, r)
}
