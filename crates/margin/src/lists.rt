// A list of spreads that others send for a question, judged (request 2026-10): 11, then 18, then what is said of it.
ghost use Rattle.std.specs.Prelude.{◌≡◌};
ghost use Rattle.account.specs.code.Lent.{account_in};
ghost use Rattle.account.specs.code.Standing.{Stands};
ghost use Rattle.account.specs.Joined.{account_of};
ghost use Rattle.margin.specs.Lists.{said_of, judged_over};

use crate::over::{asking_over, is_asked};
use account::accounts::Account;
use account::answers::Refusal;
use account::lent::{NOTES, lend, record_total};
use judging::{Verdict, judge};

// What is said of a list. A step is named by its place, from 0.
#[derive(Clone, Copy)]
pub enum Judged {
    Right,
    MoreThanFormed(usize),
    LessThanFormed(usize),
    WrongUse(usize),
}

// A list of other counts is refused with 18.
fn said_of(verdict: Verdict) -> Result<Judged, Refusal>
    ensures { result ≡ said_of verdict }
{
    match verdict {
        Verdict::Right => Ok(Judged::Right),
        Verdict::MoreThanFormed(step) => Ok(Judged::MoreThanFormed(step)),
        Verdict::LessThanFormed(step) => Ok(Judged::LessThanFormed(step)),
        Verdict::WrongUse(step) => Ok(Judged::WrongUse(step)),
        Verdict::OtherCounts => Err(Refusal::OtherCounts),
    }
}

// What is said of a list of spreads for a question: `numbers` has one for each step, of each spread its first step and then its
// second; `uses` what each step used of each prompt, one step after the other; `sent` is how many prompts the list speaks of.
pub fn judge_lent<'a>(
    morning: &'a [u8],
    noon: &'a [u8],
    account: &[u16; NOTES],
    question: usize,
    sent: usize,
    numbers: &[i64],
    uses: &[i64],
) -> Result<Judged, Refusal>
    requires { Stands morning.now noon.now (account_in account.now) }
    ensures { result ≡ judged_over (account_of morning.now noon.now) question sent numbers.now uses.now }
{
    if !is_asked(account, question) {
        return Err(Refusal::NoSuchQuestion(record_total(account)));
    }
    let asking = asking_over(morning, noon, account, question);
    said_of(judge(asking.prompts, asking.table, sent, numbers, uses))
}

// The same of an account by value, which is lent.
pub fn judge_over<'a>(
    morning: &'a [u8],
    noon: &'a [u8],
    account: Account,
    question: usize,
    sent: usize,
    numbers: &[i64],
    uses: &[i64],
) -> Result<Judged, Refusal>
    requires { Stands morning.now noon.now account }
    ensures { result ≡ judged_over (account_of morning.now noon.now) question sent numbers.now uses.now }
{
    let mut notes = [0u16; NOTES];
    lend(account, &mut notes);
    judge_lent(morning, noon, &notes, question, sent, numbers, uses)
}
