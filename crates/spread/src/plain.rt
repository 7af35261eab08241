// Deltas and numbers of spreads as plain numbers, which can be lent, and back. One function each: by `array::map` what comes back is not proved.
ghost use Rattle.std.specs.Prelude.{◌≡◌};
ghost use Rattle.spread.specs.code.Lent.{deltas_from, deltas_in, spreads_from};

use crate::{Delta, MOST_PROMPTS, MOST_SPREADS, Spreads};

pub fn plain(deltas: [Delta; MOST_PROMPTS]) -> [i64; MOST_PROMPTS]
    ensures { result ≡ deltas_in deltas }
{
    let mut numbers = [0; MOST_PROMPTS];
    for (k, delta) in deltas.iter().enumerate() {
        numbers[k] = delta.0;
    }
    numbers
}

pub fn deltas_from(numbers: [i64; MOST_PROMPTS]) -> [Delta; MOST_PROMPTS]
    ensures { result ≡ deltas_from numbers }
{
    let mut deltas = [Delta(0); MOST_PROMPTS];
    for (k, number) in numbers.iter().enumerate() {
        deltas[k] = Delta(*number);
    }
    deltas
}

pub(crate) fn spreads_from(numbers: [u64; MOST_SPREADS]) -> [Spreads; MOST_SPREADS]
    ensures { result ≡ spreads_from numbers }
{
    let mut spreads = [Spreads(0); MOST_SPREADS];
    for (i, number) in numbers.iter().enumerate() {
        spreads[i] = Spreads(*number);
    }
    spreads
}

pub(crate) fn numbers_of(spreads: [Spreads; MOST_SPREADS]) -> [u64; MOST_SPREADS]
    ensures { spreads_from result ≡ spreads }
{
    let mut numbers = [0; MOST_SPREADS];
    for (i, formed) in spreads.iter().enumerate() {
        numbers[i] = formed.0;
    }
    numbers
}
