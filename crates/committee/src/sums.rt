// The sums over the accounts of a run, and the committee's numbers from them.
ghost use Rattle.std.specs.Prelude.{◌≡◌, cond, [], ◌++◌, map, ◌-◌, ◌/◌, ◌%◌, ◌^◌, ◌≤◌, ◌<◌, eqb, pos, length, get_or, drop};
ghost use Rattle.account.specs.Check.{most_contracts};
ghost use Rattle.committee.specs.Committee.{committee_numbers, most_accounts};
ghost use Rattle.committee.specs.code.Sums.{RefusalCounted, AccountAdded, SumsOf, Within, later_numbers, sums_numbers};

use crate::figures::Account;
use formulas::amount::Amount;

// The numbers of the refusals that an account can have.
const REFUSALS: usize = 15;

// The numbers of the answer.
const NUMBERS: usize = 24;

#[derive(Clone, Copy)]
pub struct Sums {
    pub accepted: usize,
    pub refused: usize,
    pub refusals: [usize; REFUSALS],
    pub margin: Amount,
    pub largest: Amount,
    pub place: usize,
    pub credits: usize,
    pub above: usize,
}

// The sums over no account.
pub(crate) fn none() -> Sums
    ensures { SumsOf [] result }
{
    Sums {
        accepted: 0,
        refused: 0,
        refusals: [0; REFUSALS],
        margin: Amount(0),
        largest: Amount(0),
        place: 0,
        credits: 0,
        above: 0,
    }
}

// The counts of the refusals, with one more.
fn with_refusal(mut refusals: [usize; REFUSALS], refusal: usize) -> [usize; REFUSALS]
    requires { get_or refusals (refusal - 1) 0 ≤ most_accounts }
    ensures { RefusalCounted refusals refusal result }
{
    if 0 < refusal && refusal <= REFUSALS {
        refusals[refusal - 1] += 1;
    }
    refusals
}

// The sums with an account more, which stands at a place of the run.
pub(crate) fn with_account(sums: Sums, account: Account, place: usize) -> Sums
    requires { Within most_accounts sums × (account.margin.0 < 2 ^ 62) × (account.credit ≤ 1) × (account.above ≤ most_contracts) }
    ensures { AccountAdded sums account place result }
{
    let accepted = account.refusal == 0;
    let first = sums.accepted == 0;
    let above = sums.largest.0 < account.margin.0;
    let leads = accepted & (first | above);
    let (largest, place) = if leads {
        (account.margin, place)
    } else {
        (sums.largest, sums.place)
    };
    Sums {
        accepted: sums.accepted + usize::from(accepted),
        refused: sums.refused + usize::from(!accepted),
        refusals: with_refusal(sums.refusals, account.refusal),
        margin: Amount(sums.margin.0 + account.margin.0),
        largest,
        place,
        credits: sums.credits + account.credit,
        above: sums.above + account.above,
    }
}

// The mean of an amount over so many accounts, in whole hundredths, and what is left over.
fn mean(whole: Amount, accounts: usize) -> u64
    ensures { result ≡ cond (eqb accounts 0) 0 (whole.0 / accounts) }
{
    if accounts == 0 {
        0
    } else {
        whole.0 / accounts as u64
    }
}

fn left_over(whole: Amount, accounts: usize) -> u64
    ensures { result ≡ cond (eqb accounts 0) 0 (whole.0 % accounts) }
{
    if accounts == 0 {
        0
    } else {
        whole.0 % accounts as u64
    }
}

// One of the seven numbers after the refusals, from 0.
fn later_number(sums: Sums, k: usize) -> u64
    ensures { result ≡ get_or (later_numbers sums) k 0 }
{
    match k {
        0 => sums.margin.0,
        1 => sums.largest.0,
        2 => sums.place as u64,
        3 => sums.credits as u64,
        4 => sums.above as u64,
        5 => mean(sums.margin, sums.accepted),
        6 => left_over(sums.margin, sums.accepted),
        _ => 0,
    }
}

// One of the committee's numbers.
fn number_at(sums: Sums, k: usize) -> u64
    ensures { result ≡ get_or (sums_numbers sums) k 0 }
{
    if k == 0 {
        sums.accepted as u64
    } else if k == 1 {
        sums.refused as u64
    } else if k < REFUSALS + 2 {
        sums.refusals[k - 2] as u64
    } else {
        later_number(sums, k - (REFUSALS + 2))
    }
}

// All of them, at the front of `out`.
pub(crate) fn put_sums(sums: Sums, out: &mut [i64])
    requires { Within most_accounts sums × (committee_numbers ≤ length out.old) }
    ensures { out.new ≡ map pos (sums_numbers sums) ++ drop committee_numbers out.old }
{
    for k in 0..NUMBERS {
        out[k] = number_at(sums, k) as i64;
    }
}
