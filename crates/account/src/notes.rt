// What the check notes of the records passed: of each part how many records it has and where it begins.
ghost use Rattle.std.specs.Prelude.{◌≡◌, get_or};
ghost use Rattle.account.specs.code.Notes.{part_of};

use crate::parts::{CONTRACTS, ENTRIES, RATES};
use record::fields::{contract, kind};

pub fn noted(notes: &[u16], v: usize) -> usize
    ensures { result ≡ get_or notes.now v 0 }
{
    if v < notes.len() {
        usize::from(notes[v])
    } else {
        0
    }
}

// The number of a record's part.
pub fn part_of(r: &[u8]) -> usize
    ensures { result ≡ part_of r.now }
{
    match kind(r) {
        5 => ENTRIES,
        6 => RATES,
        k => CONTRACTS * k + contract(r),
    }
}
