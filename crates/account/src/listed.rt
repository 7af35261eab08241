// Refusal 7: what a record names and no earlier record lists.
ghost use Rattle.std.specs.Prelude.{◌≡◌, ◌<◌};
ghost use Rattle.exact.specs.Lists.{any};
ghost use Rattle.record.specs.Layout.{legs_of, leg_tier};
ghost use Rattle.account.specs.code.Notes.{no_contract, no_day, no_tier, unlisted_by};
ghost use Rattle.account.specs.Records.{records};

use crate::notes::noted;
use crate::parts::OWN;
use crate::stretches::{record_count, whole_at};
use record::fields::{contract, day, kind, leg_count, leg_tier, second_contract, tier};

pub(crate) fn no_contract(counts: &[u16], c: usize) -> bool
    requires { c < 256 }
    ensures { result ≡ no_contract counts.now c }
{
    noted(counts, OWN + c) == 0
}

// Whether none of a contract's prompts is on a day.
pub fn no_day(prompts: &[u8], d: usize) -> bool
    ensures { result ≡ no_day (records prompts.now) d }
{
    !(0..record_count(prompts)).any(|i| day(whole_at(prompts, i)) == d)
}

fn no_tier(prompts: &[u8], t: usize) -> bool
    ensures { result ≡ no_tier (records prompts.now) t }
{
    !(0..record_count(prompts)).any(|i| tier(whole_at(prompts, i)) == t)
}

fn no_leg_tier(prompts: &[u8], r: &[u8], leg: usize) -> bool
    ensures { result ≡ no_tier (records prompts.now) (leg_tier r.now leg) }
{
    no_tier(prompts, leg_tier(r, leg))
}

fn some_leg_tier(prompts: &[u8], r: &[u8]) -> bool
    ensures { result ≡ any (λ leg. no_tier (records prompts.now) (leg_tier r.now leg)) (legs_of r.now) }
{
    if leg_count(r) == 2 {
        no_leg_tier(prompts, r, 0) | no_leg_tier(prompts, r, 1)
    } else {
        no_leg_tier(prompts, r, 0) | (no_leg_tier(prompts, r, 1) | no_leg_tier(prompts, r, 2))
    }
}

// `prompts` are those of the record's contract.
pub(crate) fn unlisted(counts: &[u16], prompts: &[u8], r: &[u8]) -> bool
    ensures { result ≡ unlisted_by counts.now (records prompts.now) r.now }
{
    match kind(r) {
        2 => no_contract(counts, contract(r)),
        3 => no_contract(counts, contract(r)) | no_day(prompts, day(r)),
        4 => no_contract(counts, contract(r)) | some_leg_tier(prompts, r),
        5 => no_contract(counts, contract(r)) | no_contract(counts, second_contract(r)),
        _ => false,
    }
}
