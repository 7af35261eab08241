// "What one step leaves is handed to the next": a step has the pools of its own legs by value, and what it leaves is put back.
ghost use Rattle.std.specs.Prelude.{◌≡◌, true, ◌-◌, ◌≤◌, ◌<◌, min, ltb, length};
ghost use Rattle.spread.specs.Accepted.{sound_leg, sound_spread};
ghost use Rattle.spread.specs.Steps as Steps;
ghost use Rattle.spread.specs.Steps.{use_of, market_in};
ghost use Rattle.spread.specs.code.Cells.{cell_of, short_if, cell_at, most_pool, most_number, pool_count};
ghost use Rattle.spread.specs.code.Pools.{PoolsOf, SmallPools, TakenOf, lowest, formed_of, put_back_in};

use crate::{Leg, Spread, Spreads};
use exact::rounding::half_up;

pub const TIERS: usize = 16;

// Cell 2t is the long pool of tier t, cell 2t + 1 the short one, both without their sign.
pub(crate) const CELLS: usize = 2 * TIERS;

// A ratio of 1, in tenths.
const TENTHS: u64 = 10;

// The pools that the legs of a step take from; of two legs the first is read again as the third, which is not put back.
#[derive(Clone, Copy)]
pub(crate) struct Pools {
    one: u64,
    two: u64,
    three: u64,
}

// A step taken: the pools that it leaves, and the number of spreads that it formed.
#[derive(Clone, Copy)]
pub(crate) struct Took {
    pub(crate) left: Pools,
    pub(crate) number: Spreads,
}

// The pool of a tier on a side; no cell for a tier out of range.
pub(crate) fn cell_of(tier: u8, short: bool) -> usize
    ensures { result ≡ cell_of (short_if short) tier }
{
    let t = usize::from(tier);
    if t < TIERS {
        2 * t + usize::from(short)
    } else {
        CELLS
    }
}

// The pool that a leg takes from, in its spread's first step or in the second.
pub(crate) fn cell_for(leg: Leg, second: bool) -> usize
    ensures { result ≡ cell_of (market_in second leg.side) leg.tier }
{
    cell_of(leg.tier, (leg.side == 1) == second)
}

// The same of a leg whose tier is in range.
fn leg_cell(leg: Leg, second: bool) -> usize
    requires { sound_leg leg ≡ true }
    ensures { (result ≡ cell_of (market_in second leg.side) leg.tier) × (result < pool_count) }
{
    2 * usize::from(leg.tier) + usize::from((leg.side == 1) == second)
}

// "pool divided by ratio, whole ten-thousandths, rounded down"; of tenths "10 × pool / ratio, rounded down".
fn room(pool: u64, ratio: u16, tenths: bool) -> u64
    requires { (pool ≤ most_pool) × (0 < ratio) }
    ensures { result ≡ Steps.room tenths pool ratio }
{
    if tenths {
        TENTHS * pool / u64::from(ratio)
    } else if ratio == 1 {
        pool
    } else {
        pool / u64::from(ratio)
    }
}

// "number × ratio"; of tenths "number × ratio / 10, rounded to a ten-thousandth, halves up".
pub(crate) fn use_of(number: u64, ratio: u16, tenths: bool) -> u64
    requires { number ≤ most_number }
    ensures { result ≡ use_of tenths number ratio }
{
    let product = number * u64::from(ratio);
    if tenths {
        half_up(product, TENTHS)
    } else {
        product
    }
}

fn pool_for(cells: &[u64], leg: Leg, second: bool) -> u64
    requires { (length cells.now ≡ pool_count) × (sound_leg leg ≡ true) }
    ensures { result ≡ cell_at cells.now (market_in second leg.side) leg.tier }
{
    cells[leg_cell(leg, second)]
}

// The pools of a spread's legs in a step: "first A legs take long and B legs short, then the reverse".
pub(crate) fn pools_for(cells: &[u64], spread: Spread, second: bool) -> Pools
    requires { (length cells.now ≡ pool_count) × (sound_spread spread ≡ true) }
    ensures { PoolsOf cells.now second spread result }
{
    let one = pool_for(cells, spread.leg[0], second);
    let two = pool_for(cells, spread.leg[1], second);
    let three = if spread.legs == 2 {
        one
    } else {
        pool_for(cells, spread.leg[2], second)
    };
    Pools { one, two, three }
}

// Puts what a step leaves of its pools where the next finds it.
pub(crate) fn put_back(cells: &mut [u64], spread: Spread, second: bool, left: Pools)
    requires { (length cells.old ≡ pool_count) × (sound_spread spread ≡ true) }
    ensures { cells.new ≡ put_back_in second spread left cells.old }
{
    cells[leg_cell(spread.leg[0], second)] = left.one;
    cells[leg_cell(spread.leg[1], second)] = left.two;
    if spread.legs == 3 {
        cells[leg_cell(spread.leg[2], second)] = left.three;
    }
}

// "Each leg takes number × ratio", or the rounded use of tenths: what it leaves of its pool.
fn left_by(pool: u64, number: u64, ratio: u16, tenths: bool) -> u64
    requires { number ≤ most_number }
    ensures { result ≡ pool - use_of tenths number ratio }
{
    pool.saturating_sub(use_of(number, ratio, tenths))
}

impl Pools {
    // Whether none is empty: where one is, nothing is formed.
    pub(crate) fn has_room(self) -> bool
        ensures { result ≡ ltb 0 (lowest self) }
    {
        0 < self.one.min(self.two).min(self.three)
    }

    // "The number formed is the smallest over its legs".
    fn formed(self, spread: Spread) -> u64
        requires { (sound_spread spread ≡ true) × SmallPools self }
        ensures { result ≡ formed_of spread self }
    {
        let tenths = spread.tenths;
        let one = room(self.one, spread.leg[0].ratio, tenths);
        let two = room(self.two, spread.leg[1].ratio, tenths);
        let of_two = one.min(two);
        if spread.legs == 2 {
            of_two
        } else {
            of_two.min(room(self.three, spread.leg[2].ratio, tenths))
        }
    }

    // A step of a spread: the number that it forms, and what it leaves of its pools.
    pub(crate) fn take(self, spread: Spread) -> Took
        requires { (sound_spread spread ≡ true) × SmallPools self }
        ensures { TakenOf spread self result.left result.number.0 }
    {
        let tenths = spread.tenths;
        let number = self.formed(spread);
        Took {
            left: Pools {
                one: left_by(self.one, number, spread.leg[0].ratio, tenths),
                two: left_by(self.two, number, spread.leg[1].ratio, tenths),
                three: left_by(self.three, number, spread.leg[2].ratio, tenths),
            },
            number: Spreads(number),
        }
    }
}
