// The paired scenarios (000): the same price move, the opposite move of volatility.
ghost use Rattle.std.specs.Prelude.{◌≡◌};
ghost use Rattle.formulas.specs.Pairs.{pair_of};

use record::fields::SCENARIOS;

const PAIRS: [usize; SCENARIOS] = [2, 1, 4, 3, 6, 5, 8, 7, 10, 9, 12, 11, 14, 13, 15, 16];

// The scenario paired with a scenario 1 to 16; 0 for what is no scenario.
pub fn pair_of(scenario: usize) -> usize
    ensures { result ≡ pair_of scenario }
{
    match scenario {
        1..=SCENARIOS => PAIRS[scenario - 1],
        _ => 0,
    }
}
