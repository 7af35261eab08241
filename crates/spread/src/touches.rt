// How often a prompt is touched: each pool's prompts are passed in order of days, a leg going on where the one before it stopped.
ghost use Rattle.std.specs.Prelude.{◌≡◌, true, cond, List, ◌+◌, ◌≤◌, min, ltb, pos, length, replicate};
ghost use Rattle.exact.specs.Lists.{one_if};
ghost use Rattle.spread.specs.Accepted.{open_of, table_spreads, steps_of, sound_prompts, sound_table, sound, prompt_places, spread_places};
ghost use Rattle.spread.specs.code.Cells.{cell_of, most_number, pool_count, Small, numbers_over};
ghost use Rattle.spread.specs.Steps.{Open, market_in, step_of, numbers, use_of};
ghost use Rattle.spread.specs.code.Passing.{gives_in, UsedUp, Begun, Ready, Passed, LegTaken, StepTaken, FormedBy, Laid};
ghost use Rattle.spread.specs.code.Lent.{spreads_from, prompts_in, book_in};
ghost use Rattle.spread.specs.Touches.{touches};
ghost use Rattle.spread.specs.code.Book.{Booked, Run, CountedBook};

use crate::book::{Book, delta_book, pay, pool_of, pools_of};
use crate::plain::{numbers_of, plain};
use crate::pools::{CELLS, cell_for, pools_for, put_back, use_of};
use crate::{Delta, Leg, MOST_PROMPTS, MOST_SPREADS, Prompts, Spread, Spreads, Table};

// A cell for each pool, and one for a tier out of range.
const PLACES: usize = CELLS + 1;

// The delta book, and how many times its steps took of a prompt.
#[derive(Clone, Copy)]
pub struct Counted {
    pub book: Book,
    pub touches: u64,
}

// How many prompts a leg takes of, and the last place that it came to.
#[derive(Clone, Copy)]
struct Passing {
    at: usize,
    touches: u64,
}

// Each prompt's pool and the size of its net delta, zero beyond the prompts, and for each pool the place of its first prompt.
fn lay(
    pool: &mut [usize],
    size: &mut [u64],
    at: &mut [usize],
    count: usize,
    tiers: &[u8],
    nets: &[i64],
)
    requires { (sound_prompts (prompts_in count tiers.now nets.now) ≡ true)
        × (((length tiers.now ≡ prompt_places) × (length nets.now ≡ prompt_places))
        × ((length pool.old ≡ prompt_places) × ((size.old ≡ replicate prompt_places 0) × (length at.old ≡ pool_count + 1)))) }
    ensures { Laid (open_of (prompts_in count tiers.now nets.now)) pool.new size.new
        × Begun at.new pool.new size.new }
{
    for k in 0..count {
        let net = Delta(nets[k]);
        let cell = pool_of(tiers[k], net);
        pool[k] = cell;
        size[k] = net.size();
        at[cell] = at[cell].min(k);
    }
}

// What a prompt gives to a leg on a cell that still wants an amount.
fn gives(cell: usize, wanted: u64, pool: usize, size: u64) -> u64
    ensures { result ≡ gives_in cell wanted pool size }
{
    if pool == cell { wanted.min(size) } else { 0 }
}

// The next place where more is wanted, else the same.
fn further(k: usize, wanted: u64) -> usize
    requires { k ≤ prompt_places }
    ensures { result ≡ k + one_if (ltb 0 wanted) }
{
    if 0 < wanted { k + 1 } else { k }
}

// "from the prompts of its tier on that side, earliest day first", from a place on before which they are used up.
fn pass(size: &mut [u64], pool: &[usize], cell: usize, wanted: u64, start: usize) -> Passing
    requires { (length pool.now ≡ prompt_places) × (length size.old ≡ prompt_places) × UsedUp cell pool.now size.old start }
    ensures { Passed cell wanted pool.now size.old size.new result.at result.touches }
{
    let mut due = wanted;
    let mut k = start;
    let mut touches = 0;
    // A while: it goes on only where more is wanted, and stays where it stops.
    while 0 < due && k < MOST_PROMPTS {
        let given = gives(cell, due, pool[k], size[k]);
        size[k] -= given;
        due -= given;
        touches += u64::from(0 < given);
        k = further(k, due);
    }
    Passing { at: k, touches }
}

// A leg in a step: how many prompts it takes of.
fn leg_touches(
    size: &mut [u64],
    at: &mut [usize],
    pool: &[usize],
    leg: Leg,
    second: bool,
    wanted: u64,
) -> u64
    requires { Ready at.old pool.now size.old }
    ensures { LegTaken (cell_of (market_in second leg.side) leg.tier) wanted pool.now size.old size.new
        at.new result }
{
    let cell = cell_for(leg, second);
    let passed = pass(size, pool, cell, wanted, at[cell]);
    at[cell] = passed.at;
    passed.touches
}

// What a leg wants, if the spread has it.
fn wanted_by(there: bool, leg: Leg, tenths: bool, number: u64) -> u64
    requires { number ≤ most_number }
    ensures { result ≡ cond there (use_of tenths number leg.ratio) 0 }
{
    if there {
        use_of(number, leg.ratio, tenths)
    } else {
        0
    }
}

// A step that forms a number: how often its legs take of a prompt. One that forms nothing takes of none.
fn step_touches(
    size: &mut [u64],
    at: &mut [usize],
    pool: &[usize],
    spread: Spread,
    second: bool,
    number: u64,
) -> u64
    requires { Ready at.old pool.now size.old × (number ≤ most_number) }
    ensures { StepTaken (step_of second spread) number pool.now size.old size.new at.new result }
{
    if number == 0 {
        return 0;
    }
    let Spread { legs, tenths, leg } = spread;
    let [one, two, three] = leg;
    let one_wants = wanted_by(0 < legs, one, tenths, number);
    let two_wants = wanted_by(1 < legs, two, tenths, number);
    let three_wants = wanted_by(2 < legs, three, tenths, number);
    let a = leg_touches(size, at, pool, one, second, one_wants);
    let b = leg_touches(size, at, pool, two, second, two_wants);
    let c = leg_touches(size, at, pool, three, second, three_wants);
    a + b + c
}

// "Each spread, in file order, is two steps": the numbers that they form, and in the cells the pools that they leave; and how often they take of
// a prompt.
fn run_counted(
    cells: &mut [u64; CELLS],
    table: Table,
    first: &mut [u64; MOST_SPREADS],
    second: &mut [u64; MOST_SPREADS],
    size: &mut [u64; MOST_PROMPTS],
    at: &mut [usize; PLACES],
    pool: &[usize; MOST_PROMPTS],
) -> u64
    requires { (sound_table table ≡ true) × (Small cells.old
        × (((first.old ≡ replicate spread_places 0) × (second.old ≡ replicate spread_places 0)) × Ready at.old pool.now size.old)) }
    ensures run { Run cells.old (table_spreads table) cells.new (spreads_from first.new)
        (spreads_from second.new) }
    ensures counted { (ps : List Open) → Laid ps pool.now size.old
        → numbers_over (steps_of table) cells.old ≡ numbers (steps_of table) ps → result ≡ touches (steps_of table) ps }
{
    let mut touches = 0;
    for i in 0..table.count {
        let spread = table.spread[i];
        let pools = pools_for(cells, spread, false);
        if pools.has_room() {
            let took = pools.take(spread);
            put_back(cells, spread, false, took.left);
            first[i] = took.number.0;
        }
        let others = pools_for(cells, spread, true);
        if others.has_room() {
            let took = others.take(spread);
            put_back(cells, spread, true, took.left);
            second[i] = took.number.0;
        }
        let by_first = step_touches(size, at, pool, spread, false, first[i]);
        let by_second = step_touches(size, at, pool, spread, true, second[i]);
        touches += by_first + by_second;
    }
    touches
}

// The delta book of prompts and spreads that are accepted, in lent arrays of zeros, and how often its steps take of a prompt.
pub fn put_counted(
    count: usize,
    tiers: &[u8; MOST_PROMPTS],
    nets: &[i64; MOST_PROMPTS],
    table: Table,
    first: &mut [u64; MOST_SPREADS],
    second: &mut [u64; MOST_SPREADS],
    used: &mut [i64; MOST_PROMPTS],
    unused: &mut [i64; MOST_PROMPTS],
) -> u64
    requires { (sound (prompts_in count tiers.now nets.now) table ≡ true)
        × (((first.old ≡ replicate spread_places 0) × (second.old ≡ replicate spread_places 0))
        × ((used.old ≡ replicate prompt_places (pos 0)) × (unused.old ≡ replicate prompt_places (pos 0)))) }
    ensures book { Booked (prompts_in count tiers.now nets.now) table
        (book_in first.new second.new used.new unused.new) }
    ensures touched { result ≡ touches (steps_of table) (open_of (prompts_in count tiers.now nets.now)) }
{
    let mut pool = [0; MOST_PROMPTS];
    let mut size = [0; MOST_PROMPTS];
    let mut at = [MOST_PROMPTS; PLACES];
    lay(&mut pool, &mut size, &mut at, count, tiers, nets);
    let pools = pools_of(count, tiers, nets);
    let mut left = pools;
    let touches = run_counted(&mut left, table, first, second, &mut size, &mut at, &pool);
    pay(count, tiers, nets, pools, &left, used, unused);
    touches
}

// The steps of what is accepted, with the numbers that they formed, in lent arrays: how often they take of a prompt.
pub fn touches_in(
    count: usize,
    tiers: &[u8; MOST_PROMPTS],
    nets: &[i64; MOST_PROMPTS],
    table: Table,
    first: &[u64; MOST_SPREADS],
    second: &[u64; MOST_SPREADS],
) -> u64
    requires { (sound (prompts_in count tiers.now nets.now) table ≡ true)
        × FormedBy (prompts_in count tiers.now nets.now) table (spreads_from first.now) (spreads_from second.now) }
    ensures { result ≡ touches (steps_of table) (open_of (prompts_in count tiers.now nets.now)) }
{
    let mut pool = [0; MOST_PROMPTS];
    let mut size = [0; MOST_PROMPTS];
    let mut at = [MOST_PROMPTS; PLACES];
    lay(&mut pool, &mut size, &mut at, count, tiers, nets);
    let mut touches = 0;
    for i in 0..table.count {
        let spread = table.spread[i];
        let one = step_touches(&mut size, &mut at, &pool, spread, false, first[i]);
        let two = step_touches(&mut size, &mut at, &pool, spread, true, second[i]);
        touches += one + two;
    }
    touches
}

// The same of prompts and numbers by value.
pub fn touches_of(
    prompts: Prompts,
    table: Table,
    first: [Spreads; MOST_SPREADS],
    second: [Spreads; MOST_SPREADS],
) -> u64
    requires { (sound prompts table ≡ true) × FormedBy prompts table first second }
    ensures { result ≡ touches (steps_of table) (open_of prompts) }
{
    touches_in(
        prompts.count,
        &prompts.tier,
        &plain(prompts.net),
        table,
        &numbers_of(first),
        &numbers_of(second),
    )
}

// The delta book, and "how many times some step moved some prompt's unused delta towards zero". Prompts or spreads that are
// not accepted get zeros.
pub fn counted_book(prompts: Prompts, table: Table) -> Counted
    ensures { CountedBook prompts table result }
{
    let book = delta_book(prompts, table);
    let touches = if book.accepted {
        touches_of(prompts, table, book.first, book.second)
    } else {
        0
    };
    Counted { book, touches }
}
