// The contracts of an account, read from the numbers of its figures.
ghost use Rattle.std.specs.Prelude.{◌≡◌, ◌+◌, ◌^◌, ◌<◌, ltb, length};
ghost use Rattle.account.specs.Check.{most_contracts};
ghost use Rattle.exact.specs.Lists.{one_if};
ghost use Rattle.formulas.specs.Margin.{risk};
ghost use Rattle.committee.specs.Committee.{number_at};
ghost use Rattle.committee.specs.code.Sums.{Fit, FoundAt, FoundIn};

use account::parts::CONTRACTS;
use exact::signed::or_zero;
use formulas::amount::Amount;
use margin::numbers::FIGURES_EACH;

// What contracts add: their margins, how many of them have credit, and how many a short option minimum above the risk.
#[derive(Clone, Copy)]
pub struct Found {
    pub margin: Amount,
    pub credits: usize,
    pub above: usize,
}

// An amount among the numbers.
fn amount_at(numbers: &[i64], k: usize) -> Amount
    requires { k < length numbers.now }
    ensures { result.0 ≡ number_at numbers.now k }
{
    Amount(or_zero(numbers[k]))
}

// Whether a short option minimum is above the risk that it is compared with: scanning + interprompt + prompt - credit, not below 0.
fn above_risk(
    minimum: Amount,
    scanning: Amount,
    interprompt: Amount,
    prompt: Amount,
    credit: Amount,
) -> bool
    requires { scanning.0 + interprompt.0 + prompt.0 < 2 ^ 64 }
    ensures { result ≡ ltb (risk scanning.0 interprompt.0 prompt.0 credit.0) minimum.0 }
{
    let charged = scanning.0 + interprompt.0 + prompt.0;
    charged.saturating_sub(credit.0) < minimum.0
}

// What the contract at a place adds.
fn found_at(numbers: &[i64], i: usize) -> Found
    requires { Fit numbers.now × (i < most_contracts) }
    ensures { FoundAt numbers.now i result }
{
    let at = FIGURES_EACH * i;
    let scanning = amount_at(numbers, at + 2);
    let interprompt = amount_at(numbers, at + 3);
    let prompt = amount_at(numbers, at + 4);
    let credit = amount_at(numbers, at + 5);
    let minimum = amount_at(numbers, at + 6);
    let above = above_risk(minimum, scanning, interprompt, prompt, credit);
    Found {
        margin: amount_at(numbers, at + 7),
        credits: usize::from(0 < credit.0),
        above: usize::from(above),
    }
}

// What all contracts add. Of places at which no contract stands the numbers are 0, and add nothing.
pub(crate) fn found_in(numbers: &[i64]) -> Found
    requires { Fit numbers.now }
    ensures { FoundIn numbers.now most_contracts result }
{
    let mut margin: u64 = 0;
    let mut credits = 0;
    let mut above = 0;
    for i in 0..CONTRACTS {
        let found = found_at(numbers, i);
        margin += found.margin.0;
        credits += found.credits;
        above += found.above;
    }
    Found {
        margin: Amount(margin),
        credits,
        above,
    }
}
