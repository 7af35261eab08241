// The delta book of a table of spreads: each step's number, and used and unused at each prompt.
ghost use Rattle.std.specs.Prelude.{◌≡◌, true, length, replicate, pos};
ghost use Rattle.spread.specs.Accepted.{open_of, table_spreads, sound_prompts, sound_table, sound, prompt_places, spread_places};
ghost use Rattle.spread.specs.Spend.{market_of};
ghost use Rattle.spread.specs.code.Cells.{cell_of, Pooled, Small, pool_count};
ghost use Rattle.spread.specs.code.Book.{Booked, Refused, Run, Spent};
ghost use Rattle.spread.specs.code.Lent.{deltas_from, spreads_from, prompts_in, book_in};

use crate::accepted::accepted;
use crate::plain::{deltas_from, plain, spreads_from};
use crate::pools::{CELLS, cell_of, pools_for, put_back};
use crate::{Delta, MOST_PROMPTS, MOST_SPREADS, Prompts, Spreads, Table};
use exact::signed::towards_zero;

// Spread k formed first[k] in its first step and second[k] in its second; used[k] and unused[k] are the parts of prompt k's
// net delta. All are zero beyond the spreads and prompts given, and where these are not accepted.
#[derive(Clone, Copy)]
pub struct Book {
    pub accepted: bool,
    pub first: [Spreads; MOST_SPREADS],
    pub second: [Spreads; MOST_SPREADS],
    pub used: [Delta; MOST_PROMPTS],
    pub unused: [Delta; MOST_PROMPTS],
}

// The pool of a prompt: its tier's, on the side of its net delta.
pub(crate) fn pool_of(tier: u8, net: Delta) -> usize
    ensures { result ≡ cell_of (market_of net.0) tier }
{
    cell_of(tier, net.is_short())
}

// "A tier's long pool is the sum of its positive unused deltas, its short pool that of its negative ones".
pub(crate) fn pools_of(count: usize, tiers: &[u8], nets: &[i64]) -> [u64; CELLS]
    requires { (sound_prompts (prompts_in count tiers.now nets.now) ≡ true)
        × ((length tiers.now ≡ prompt_places) × (length nets.now ≡ prompt_places)) }
    ensures { Pooled result (open_of (prompts_in count tiers.now nets.now)) }
{
    let mut cells = [0; CELLS];
    for i in 0..count {
        let net = Delta(nets[i]);
        let cell = pool_of(tiers[i], net);
        cells[cell] += net.size();
    }
    cells
}

// "Each spread, in file order, is two steps": the numbers that they form, and in the cells the pools that they leave.
fn run(
    cells: &mut [u64; CELLS],
    table: Table,
    first: &mut [u64; MOST_SPREADS],
    second: &mut [u64; MOST_SPREADS],
)
    requires { (sound_table table ≡ true) × (Small cells.old
        × ((first.old ≡ replicate spread_places 0) × (second.old ≡ replicate spread_places 0))) }
    ensures { Run cells.old (table_spreads table) cells.new (spreads_from first.new)
        (spreads_from second.new) }
{
    for i in 0..table.count {
        let spread = table.spread[i];
        let pools = pools_for(cells, spread, false);
        if pools.has_room() {
            let took = pools.take(spread);
            put_back(cells, spread, false, took.left);
            first[i] = took.number.0;
        }
        let others = pools_for(cells, spread, true);
        if others.has_room() {
            let took = others.take(spread);
            put_back(cells, spread, true, took.left);
            second[i] = took.number.0;
        }
    }
}

// What the steps used of each pool, had less left, "from the prompts of its tier on that side, earliest day first": no prompt
// goes past zero, and one that has paid is no longer among what was had.
pub(crate) fn pay(
    count: usize,
    tiers: &[u8],
    nets: &[i64],
    pools: [u64; CELLS],
    left: &[u64],
    used: &mut [i64; MOST_PROMPTS],
    unused: &mut [i64; MOST_PROMPTS],
)
    requires { (sound_prompts (prompts_in count tiers.now nets.now) ≡ true)
        × (((length tiers.now ≡ prompt_places) × (length nets.now ≡ prompt_places)) × ((length left.now ≡ pool_count)
        × ((used.old ≡ replicate prompt_places (pos 0)) × (unused.old ≡ replicate prompt_places (pos 0))))) }
    ensures { Spent pools left.now (open_of (prompts_in count tiers.now nets.now))
        (deltas_from used.new) (deltas_from unused.new) }
{
    let mut had = pools;
    for k in 0..count {
        let net = Delta(nets[k]);
        let cell = pool_of(tiers[k], net);
        let due = had[cell].saturating_sub(left[cell]);
        let kept = towards_zero(net.0, due);
        used[k] = net.0 - kept;
        unused[k] = kept;
        had[cell] = had[cell].saturating_sub(net.size());
    }
}

// The delta book of prompts and spreads that are accepted, in lent arrays of zeros: they are not tested again.
pub fn put_book(
    count: usize,
    tiers: &[u8; MOST_PROMPTS],
    nets: &[i64; MOST_PROMPTS],
    table: Table,
    first: &mut [u64; MOST_SPREADS],
    second: &mut [u64; MOST_SPREADS],
    used: &mut [i64; MOST_PROMPTS],
    unused: &mut [i64; MOST_PROMPTS],
)
    requires { (sound (prompts_in count tiers.now nets.now) table ≡ true)
        × (((first.old ≡ replicate spread_places 0) × (second.old ≡ replicate spread_places 0))
        × ((used.old ≡ replicate prompt_places (pos 0)) × (unused.old ≡ replicate prompt_places (pos 0)))) }
    ensures { Booked (prompts_in count tiers.now nets.now) table
        (book_in first.new second.new used.new unused.new) }
{
    let pools = pools_of(count, tiers, nets);
    let mut left = pools;
    run(&mut left, table, first, second);
    pay(count, tiers, nets, pools, &left, used, unused);
}

// Nothing is accepted, and nothing formed or used.
fn refused() -> Book
    ensures { Refused result }
{
    Book {
        accepted: false,
        first: [Spreads(0); MOST_SPREADS],
        second: [Spreads(0); MOST_SPREADS],
        used: [Delta(0); MOST_PROMPTS],
        unused: [Delta(0); MOST_PROMPTS],
    }
}

// The delta book of prompts and spreads that are accepted: they are not tested again.
pub fn book_of_accepted(prompts: Prompts, table: Table) -> Book
    requires { sound prompts table ≡ true }
    ensures { Booked prompts table result }
{
    let mut first = [0; MOST_SPREADS];
    let mut second = [0; MOST_SPREADS];
    let mut used = [0; MOST_PROMPTS];
    let mut unused = [0; MOST_PROMPTS];
    put_book(
        prompts.count,
        &prompts.tier,
        &plain(prompts.net),
        table,
        &mut first,
        &mut second,
        &mut used,
        &mut unused,
    );
    Book {
        accepted: true,
        first: spreads_from(first),
        second: spreads_from(second),
        used: deltas_from(used),
        unused: deltas_from(unused),
    }
}

// The delta book of prompts, the earliest of a tier first, under a table of spreads in order of priority: what each spread
// forms in its two steps, and what of each prompt's net delta is used and what is not. Prompts or spreads that are not
// accepted get zeros.
pub fn delta_book(prompts: Prompts, table: Table) -> Book
    ensures { Booked prompts table result }
{
    if accepted(prompts, table) {
        book_of_accepted(prompts, table)
    } else {
        refused()
    }
}
