// One account of a run: what its figures add to the committee's. No other function asks the question of the figures.
ghost use Rattle.committee.specs.Answered.{answered_account};
ghost use Rattle.committee.specs.code.Sums.{AccountOf};

use crate::contracts::found_in;
use account::answers::number_of;
use formulas::amount::Amount;
use margin::asking::Question;
use margin::numbers::LONGEST_FIGURES;
use questions::plain::answer;

// What an account adds: the number of its refusal, 0 where it is accepted; its margin; whether it has credit; and how many of its
// contracts have a short option minimum above the risk. A refused account adds its refusal alone.
#[derive(Clone, Copy)]
pub struct Account {
    pub refusal: usize,
    pub margin: Amount,
    pub credit: usize,
    pub above: usize,
}

pub(crate) fn answer_account(account: &[u8]) -> Account
    ensures { AccountOf (answered_account account.now) result }
{
    let mut numbers = [0i64; LONGEST_FIGURES];
    let told = answer(account, Question::Figures, &mut numbers);
    let refusal = number_of(told);
    let found = found_in(&numbers);
    Account {
        refusal,
        margin: found.margin,
        credit: usize::from(0 < found.credits),
        above: found.above,
    }
}
