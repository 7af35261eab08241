// A part of a file by its number: CONTRACTS * kind + contract for a contract's own record, its prompts, its rows and its
// interprompt spreads, one number for all intercontract spreads, and one for all currency rates.
ghost use Rattle.std.specs.Prelude.{◌≡◌};
ghost use Rattle.account.specs.code.Notes.{part_at};

use crate::notes::noted;
use crate::stretches::stretch;

// Contracts are numbered 0 to 15.
pub const CONTRACTS: usize = 16;

pub const OWN: usize = CONTRACTS;

pub const PROMPTS: usize = 2 * CONTRACTS;

pub const ROWS: usize = 3 * CONTRACTS;

pub const SPREADS: usize = 4 * CONTRACTS;

pub const ENTRIES: usize = 5 * CONTRACTS;

pub const RATES: usize = ENTRIES + 1;

pub const PARTS: usize = RATES + 1;

// The records of part `v` as they stand in the file, by where it begins and how many it has.
pub(crate) fn part_at<'a>(file: &'a [u8], first: &[u16], counts: &[u16], v: usize) -> &'a [u8]
    ensures { result.now ≡ part_at file.now first.now counts.now v }
{
    stretch(file, noted(first, v), noted(counts, v))
}
