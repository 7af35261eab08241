// One step of a spread over the prompts themselves: who pays for it.
ghost use Rattle.std.specs.Prelude.{◌≡◌};
ghost use Rattle.spread.specs.Uses.{sound_for};
ghost use Rattle.spread.specs.code.Step.{Stepped, NotTaken};

use crate::accepted::{sound_prompts, sound_spread};
use crate::book::{pay, pools_of};
use crate::plain::{deltas_from, plain};
use crate::pools::{pools_for, put_back};
use crate::{Delta, MOST_PROMPTS, Prompts, Spread, Spreads};

// A step of a spread: the number that it forms, what it takes of each prompt, and the prompts as it leaves them. Where
// prompts or spread are not accepted it forms and takes nothing.
#[derive(Clone, Copy)]
pub struct Step {
    pub accepted: bool,
    pub number: Spreads,
    pub taken: [Delta; MOST_PROMPTS],
    pub left: Prompts,
}

fn can_step(prompts: Prompts, spread: Spread) -> bool
    ensures { result ≡ sound_for prompts spread }
{
    sound_prompts(prompts) & sound_spread(spread)
}

// Nothing is accepted, and nothing formed or taken.
fn not_taken(prompts: Prompts) -> Step
    ensures { NotTaken prompts result }
{
    Step {
        accepted: false,
        number: Spreads(0),
        taken: [Delta(0); MOST_PROMPTS],
        left: prompts,
    }
}

// A spread's first step over prompts, the earliest of a tier first, or its second: "each leg takes number × ratio from the
// prompts of its tier on that side, earliest day first".
pub fn step_over(prompts: Prompts, spread: Spread, second: bool) -> Step
    ensures { Stepped prompts spread second result }
{
    if !can_step(prompts, spread) {
        return not_taken(prompts);
    }
    let count = prompts.count;
    let tiers = prompts.tier;
    let nets = plain(prompts.net);
    let pools = pools_of(count, &tiers, &nets);
    let took = pools_for(&pools, spread, second).take(spread);
    let mut after = pools;
    put_back(&mut after, spread, second, took.left);
    let mut used = [0; MOST_PROMPTS];
    let mut unused = [0; MOST_PROMPTS];
    pay(count, &tiers, &nets, pools, &after, &mut used, &mut unused);
    Step {
        accepted: true,
        number: took.number,
        taken: deltas_from(used),
        left: Prompts {
            count,
            tier: tiers,
            net: deltas_from(unused),
        },
    }
}
