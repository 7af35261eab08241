// Refusals 4 and 8: order and clash.
ghost use Rattle.std.specs.Prelude.{◌≡◌, ◌||◌, eqb};
ghost use Rattle.record.specs.Layout.{legs_of, leg_side};
ghost use Rattle.account.specs.Check.{kind_falls, number_not_above, day_not_above, tier_falls, contract_falls, same_leg, alike_among, no_leg_on, legs_clash};
ghost use Rattle.account.specs.Check.{with_itself, currency_not_above, out_of_order};

use record::fields::{
    contract, day, kind, leg_count, leg_side, leg_tier, rate_currency, second_contract, tier,
};

pub(crate) fn kind_falls(before: &[u8], r: &[u8]) -> bool
    ensures { result ≡ kind_falls before.now r.now }
{
    kind(r) < kind(before)
}

pub(crate) fn number_not_above(before: &[u8], r: &[u8]) -> bool
    ensures { result ≡ number_not_above before.now r.now }
{
    (kind(before) == 1) & (contract(r) <= contract(before))
}

pub(crate) fn day_not_above(before: &[u8], r: &[u8]) -> bool
    ensures { result ≡ day_not_above before.now r.now }
{
    let c = contract(r);
    let last = contract(before);
    (kind(before) == 2) & ((c < last) | ((c == last) & (day(r) <= day(before))))
}

pub(crate) fn tier_falls(before: &[u8], r: &[u8]) -> bool
    ensures { result ≡ tier_falls before.now r.now }
{
    ((kind(before) == 2) & (contract(before) == contract(r))) & (tier(r) < tier(before))
}

pub(crate) fn contract_falls(before: &[u8], r: &[u8]) -> bool
    ensures { result ≡ contract_falls before.now r.now }
{
    (kind(before) == kind(r)) & (contract(r) < contract(before))
}

fn same_leg(r: &[u8], i: usize, j: usize) -> bool
    ensures { result ≡ same_leg r.now i j }
{
    (leg_tier(r, i) == leg_tier(r, j)) & (leg_side(r, i) == leg_side(r, j))
}

fn some_alike(r: &[u8]) -> bool
    ensures { result ≡ alike_among r.now (legs_of r.now) }
{
    if leg_count(r) == 2 {
        same_leg(r, 0, 1)
    } else {
        same_leg(r, 0, 1) | (same_leg(r, 0, 2) | same_leg(r, 1, 2))
    }
}

fn on_side(r: &[u8], leg: usize, side: usize) -> bool
    ensures { result ≡ eqb (leg_side r.now leg) side }
{
    leg_side(r, leg) == side
}

fn no_leg_on(r: &[u8], side: usize) -> bool
    ensures { result ≡ no_leg_on side r.now }
{
    if leg_count(r) == 2 {
        !(on_side(r, 0, side) | on_side(r, 1, side))
    } else {
        !(on_side(r, 0, side) | (on_side(r, 1, side) | on_side(r, 2, side)))
    }
}

fn legs_clash(r: &[u8]) -> bool
    ensures { result ≡ legs_clash r.now }
{
    some_alike(r) | (no_leg_on(r, 1) | no_leg_on(r, 2))
}

// Of an interprompt spread; by itself, so that the other kinds need no copy of the slices for `legs_clash`.
fn spread_out_of_order(before: &[u8], r: &[u8]) -> bool
    ensures { result ≡ contract_falls before.now r.now || legs_clash r.now }
{
    contract_falls(before, r) | legs_clash(r)
}

fn with_itself(r: &[u8]) -> bool
    ensures { result ≡ with_itself r.now }
{
    contract(r) == second_contract(r)
}

fn currency_not_above(before: &[u8], r: &[u8]) -> bool
    ensures { result ≡ currency_not_above before.now r.now }
{
    (kind(before) == 6) & (rate_currency(r) <= rate_currency(before))
}

pub(crate) fn out_of_order(before: &[u8], r: &[u8]) -> bool
    ensures { result ≡ out_of_order before.now r.now }
{
    match kind(r) {
        1 => number_not_above(before, r),
        2 => day_not_above(before, r) | tier_falls(before, r),
        3 => contract_falls(before, r),
        4 => spread_out_of_order(before, r),
        5 => with_itself(r),
        6 => currency_not_above(before, r),
        _ => false,
    }
}
