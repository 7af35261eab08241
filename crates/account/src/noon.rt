// "Noon against the morning": the verdict on a pair of files, the joined account, and a contract's prompts.
ghost use Rattle.std.specs.Prelude.{◌≡◌, ◌<◌};
ghost use Rattle.account.specs.Check.{most_contracts};
ghost use Rattle.account.specs.code.Standing.{JoinedBy};
ghost use Rattle.account.specs.code.Surveyed.{Surveyed};
ghost use Rattle.account.specs.code.Pair.{noon_spread, verdict_by, PairBy, place_by};
ghost use Rattle.account.specs.Noon.{joined_verdict, prompt_place, joined_prompts};

use crate::accounts::{Account, conversions_answer, join, record_total, supplier};
use crate::answers::Refusal;
use crate::check::{MOST_RECORDS, Survey, take_survey};
use crate::parts::{CONTRACTS, ENTRIES, OWN, PROMPTS, RATES};
use crate::stretches::stretch;

// Which file an answer is about.
pub const JOINED: usize = 0;

pub const MORNING: usize = 1;

pub const NOON: usize = 2;

#[derive(Clone, Copy)]
pub struct Verdict {
    pub file: usize,
    pub answer: Result<(), Refusal>,
}

// 12: "the noon file has kind 5, at its first such record", or kind 6.
fn noon_spread(noon: Survey) -> Result<(), Refusal>
    ensures { result ≡ noon_spread noon }
{
    if noon.counts[ENTRIES] != 0 {
        return Err(Refusal::NoonSpread(noon.first[ENTRIES] as usize));
    }
    if noon.counts[RATES] != 0 {
        return Err(Refusal::NoonSpread(noon.first[RATES] as usize));
    }
    Ok(())
}

// "Each file by 01's 1 to 9, morning first, saying which; then 12 ..; then, naming the joined record count, 13".
fn verdict_of(morning: Survey, noon: Survey, records: usize) -> Verdict
    ensures { result ≡ verdict_by morning noon records }
{
    if morning.answer.is_err() {
        return Verdict {
            file: MORNING,
            answer: morning.answer,
        };
    }
    if noon.answer.is_err() {
        return Verdict {
            file: NOON,
            answer: noon.answer,
        };
    }
    let third = noon_spread(noon);
    if third.is_err() {
        return Verdict {
            file: NOON,
            answer: third,
        };
    }
    if MOST_RECORDS < records {
        return Verdict {
            file: JOINED,
            answer: Err(Refusal::TooManyJoined(records)),
        };
    }
    Verdict {
        file: JOINED,
        answer: Ok(()),
    }
}

// The verdict on a pair of files, and the joined account.
#[derive(Clone, Copy)]
pub struct CheckedPair {
    pub verdict: Verdict,
    pub account: Account,
}

// "Joined, between 13 and 21", 14 and 15 of the joined account.
fn pair_verdict<'a>(
    morning: &'a [u8],
    noon: &'a [u8],
    first: Survey,
    second: Survey,
    account: Account,
) -> Verdict
    requires { Surveyed morning.now first × (Surveyed noon.now second × JoinedBy first second account) }
    ensures { result ≡ joined_verdict morning.now noon.now }
{
    let verdict = verdict_of(first, second, record_total(account));
    if verdict.answer.is_err() {
        return verdict;
    }
    if first.converts | second.converts {
        return Verdict {
            file: JOINED,
            answer: conversions_answer(morning, noon, account),
        };
    }
    Verdict {
        file: JOINED,
        answer: Ok(()),
    }
}

pub fn check_pair<'a>(morning: &'a [u8], noon: &'a [u8]) -> CheckedPair
    ensures { PairBy morning.now noon.now result }
{
    let first = take_survey(morning);
    let second = take_survey(noon);
    let account = join(first, second);
    CheckedPair {
        verdict: pair_verdict(morning, noon, first, second, account),
        account,
    }
}

// Where a contract's prompts stand: in which file, from which record on, and how many.
#[derive(Clone, Copy)]
pub struct Place {
    pub file: usize,
    pub first: usize,
    pub records: usize,
}

fn place_in(file: usize, survey: Survey, c: usize) -> Place
    requires { c < most_contracts }
    ensures { result ≡ place_by file survey c }
{
    Place {
        file,
        first: survey.first[PROMPTS + c] as usize,
        records: survey.counts[PROMPTS + c] as usize,
    }
}

fn nowhere() -> Place
    ensures { result ≡ record { file = 0; first = 0; records = 0 } }
{
    Place {
        file: JOINED,
        first: 0,
        records: 0,
    }
}

// The place of a contract's prompts in whichever file supplies them; nowhere if neither lists it or the pair is refused.
pub fn prompt_place<'a>(morning: &'a [u8], noon: &'a [u8], contract: usize) -> Place
    ensures { result ≡ prompt_place morning.now noon.now contract }
{
    let first = take_survey(morning);
    let second = take_survey(noon);
    let account = join(first, second);
    let verdict = pair_verdict(morning, noon, first, second, account);
    if verdict.answer.is_err() {
        return nowhere();
    }
    if CONTRACTS <= contract {
        return nowhere();
    }
    if second.counts[OWN + contract] != 0 {
        return place_in(NOON, second, contract);
    }
    if first.counts[OWN + contract] != 0 {
        return place_in(MORNING, first, contract);
    }
    nowhere()
}

// "Hand back its prompt records as they stand in whichever file supplies them."
pub fn prompts<'a>(morning: &'a [u8], noon: &'a [u8], contract: usize) -> &'a [u8]
    ensures { result.now ≡ joined_prompts morning.now noon.now contract }
{
    let place = prompt_place(morning, noon, contract);
    let file = supplier(morning, noon, place.file == NOON);
    stretch(file, place.first, place.records)
}
