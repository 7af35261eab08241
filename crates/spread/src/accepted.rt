// Which prompts and which spreads are accepted.
ghost use Rattle.std.specs.Prelude.{◌≡◌, [], ◌∷◌};
ghost use Rattle.spread.specs.Accepted.{sound_leg, legs_alike, sound_legs_of, sound_spread, sound_table, sound_prompt, sound_prompts, sound};

use crate::pools::TIERS;
use crate::{Delta, Leg, MOST_PROMPTS, MOST_SPREADS, Prompts, Spread, Table};

// 128 rows of 100,000 lots at a delta of 1.0000.
pub const MOST_DELTA: u64 = 128_000_000_000;

fn sound_leg(leg: Leg) -> bool
    ensures { result ≡ sound_leg leg }
{
    (usize::from(leg.tier) < TIERS) & ((leg.side == 1) | (leg.side == 2)) & (0 < leg.ratio)
}

fn same_leg(a: Leg, b: Leg) -> bool
    ensures { result ≡ legs_alike a b }
{
    (a.tier == b.tier) & (a.side == b.side)
}

fn sound_two(a: Leg, b: Leg) -> bool
    ensures { result ≡ sound_legs_of (a ∷ b ∷ []) }
{
    sound_leg(a) & !same_leg(a, b) & sound_leg(b)
}

fn sound_three(a: Leg, b: Leg, c: Leg) -> bool
    ensures { result ≡ sound_legs_of (a ∷ b ∷ c ∷ []) }
{
    sound_leg(a) & !(same_leg(a, b) | same_leg(a, c)) & sound_two(b, c)
}

pub(crate) fn sound_spread(spread: Spread) -> bool
    ensures { result ≡ sound_spread spread }
{
    match spread.legs {
        2 => sound_two(spread.leg[0], spread.leg[1]),
        3 => sound_three(spread.leg[0], spread.leg[1], spread.leg[2]),
        _ => false,
    }
}

fn sound_table(table: Table) -> bool
    ensures { result ≡ sound_table table }
{
    table.count <= MOST_SPREADS
        && table.spread[..table.count]
            .iter()
            .all(|spread| sound_spread(*spread))
}

fn sound_prompt(tier: u8, net: Delta) -> bool
    ensures { result ≡ sound_prompt (record { tier = tier; unused = net.0 }) }
{
    (usize::from(tier) < TIERS) & (net.size() <= MOST_DELTA)
}

pub(crate) fn sound_prompts(prompts: Prompts) -> bool
    ensures { result ≡ sound_prompts prompts }
{
    prompts.count <= MOST_PROMPTS
        && (0..prompts.count).all(|k| sound_prompt(prompts.tier[k], prompts.net[k]))
}

// Whether prompts and spreads can be run: at most 32 of each; tiers 0 to 15 and net deltas within the most; each spread of
// 2 or 3 legs, with sides A or B, ratios above 0, and no two legs with the same tier and side.
pub fn accepted(prompts: Prompts, table: Table) -> bool
    ensures { result ≡ sound prompts table }
{
    sound_prompts(prompts) & sound_table(table)
}
