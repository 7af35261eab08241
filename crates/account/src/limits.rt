// Refusal 9: one record more than a limit.
ghost use Rattle.std.specs.Prelude.{◌≡◌};
ghost use Rattle.account.specs.code.Notes.{over_limit_by};

use crate::notes::{noted, part_of};
use record::fields::kind;

pub const MOST_PROMPTS: usize = 32;

// "per contract .. 128 rows"
pub const MOST_ROWS: usize = 128;

pub(crate) const MOST_SPREADS: usize = 32;

pub(crate) const MOST_ENTRIES: usize = 32;

pub(crate) fn over_limit(counts: &[u16], r: &[u8]) -> bool
    ensures { result ≡ over_limit_by counts.now r.now }
{
    let count = noted(counts, part_of(r));
    match kind(r) {
        2 => MOST_PROMPTS <= count,
        3 => MOST_ROWS <= count,
        4 => MOST_SPREADS <= count,
        5 => MOST_ENTRIES <= count,
        _ => false,
    }
}
