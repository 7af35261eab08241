// Figures for the risk committee (request 2026-12): one list of numbers over a run of accounts.
#![tactic(auto)]

mod contracts;
mod figures;
mod sums;

ghost use Rattle.std.specs.Prelude.{◌≡◌, length};
ghost use Rattle.committee.specs.Committee.{committee_answer, after_committee};

use crate::figures::answer_account;
use crate::sums::{none, put_sums, with_account};
use account::answers::Refusal;
use runs::add_up;

// The most accounts of a run.
const MOST_ACCOUNTS: usize = 100;

// How many numbers the answer has.
const NUMBERS: usize = 24;

// The risk committee's figures of a run of accounts, one after the other in `accounts`, each of its length, at the front of `out`: how
// many are accepted and how many refused; how many with each refusal from 1 to 15; their margin summed, the largest and the lowest place
// that holds it; how many have credit; how many contracts have a short option minimum above the risk that it is compared with; the
// mean margin and its remainder. The run is refused as a whole with 19 where there are more than 100 accounts, then with 17 where the
// lengths do not add up to what is lent, then with 10 where numbers are lacking: then nothing is written.
pub fn answer_committee(accounts: &[u8], lengths: &[usize], out: &mut [i64]) -> Result<(), Refusal>
    ensures { (result ≡ committee_answer accounts.now lengths.now (length out.old))
        × (out.new ≡ after_committee accounts.now lengths.now out.old) }
{
    let count = lengths.len();
    if MOST_ACCOUNTS < count {
        return Err(Refusal::TooManyAccounts);
    }
    if !add_up(lengths, accounts.len()) {
        return Err(Refusal::LengthsDiffer);
    }
    if out.len() < NUMBERS {
        return Err(Refusal::TooFewNumbers(0));
    }
    let mut sums = none();
    let mut at = 0;
    for (i, length) in lengths.iter().enumerate() {
        let end = at + *length;
        let account = answer_account(&accounts[at..end]);
        sums = with_account(sums, account, i);
        at = end;
    }
    put_sums(sums, out);
    Ok(())
}
