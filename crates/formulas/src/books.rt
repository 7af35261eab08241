// The delta book of a contract, by the spread steps.
ghost use Rattle.std.specs.Prelude.{map, ◌≡◌, true, ◌≤◌, pos, length, replicate};
ghost use Rattle.account.specs.Records.{records};
ghost use Rattle.spread.specs.Accepted.{prompt_places, spread_places};
ghost use Rattle.spread.specs.Steps.{steps};
ghost use Rattle.spread.specs.Touches.{touches, most_touches};
ghost use Rattle.spread.specs.code.Lent.{book_in};
ghost use Rattle.formulas.specs.Deltas.{opens_with, interprompt};
ghost use Rattle.formulas.specs.code.Promised.{BookOf, BookRoom};

use crate::tables::{interprompt_table, put_tiers};
use record::bytes::RECORD_BYTES;
use spread::book::put_book;
use spread::touches::put_counted;
use spread::{MOST_PROMPTS, MOST_SPREADS};

// Nothing is used: what is unused are the net deltas. One by one, so that no memmove is called.
fn put_unused(nets: &[i64; MOST_PROMPTS], unused: &mut [i64; MOST_PROMPTS])
    requires { (length nets.now ≡ prompt_places) × (length unused.old ≡ prompt_places) }
    ensures { unused.new ≡ nets.now }
{
    for i in 0..MOST_PROMPTS {
        let net = nets[i];
        unused[i] = net;
    }
}

// The book of a contract's interprompt spreads, over its prompts and their net deltas, in lent arrays of zeros. Without spreads nothing is used. Where
// it is asked for, how often the steps take of a prompt: the contract's tiers and its table are made once for both.
pub fn put_contract_book(
    prompts: &[u8],
    nets: &[i64; MOST_PROMPTS],
    spreads: &[u8],
    first: &mut [u64; MOST_SPREADS],
    second: &mut [u64; MOST_SPREADS],
    used: &mut [i64; MOST_PROMPTS],
    unused: &mut [i64; MOST_PROMPTS],
    counted: bool,
) -> u64
    requires { BookRoom (records prompts.now) nets.now (records spreads.now)
        × (((first.old ≡ replicate spread_places 0) × (second.old ≡ replicate spread_places 0))
        × ((used.old ≡ replicate prompt_places (pos 0)) × (unused.old ≡ replicate prompt_places (pos 0)))) }
    ensures book { BookOf (steps (map interprompt (records spreads.now))) (opens_with (records prompts.now) nets.now)
        (book_in first.new second.new used.new unused.new) }
    ensures touched { counted ≡ true → (result ≡ touches (steps (map interprompt (records spreads.now)))
        (opens_with (records prompts.now) nets.now)) × (result ≤ most_touches) }
{
    if spreads.len() < RECORD_BYTES {
        put_unused(nets, unused);
        return 0;
    }
    let mut tiers = [0u8; MOST_PROMPTS];
    put_tiers(&mut tiers, prompts);
    let count = prompts.len() / RECORD_BYTES;
    let table = interprompt_table(spreads);
    if counted {
        put_counted(count, &tiers, nets, table, first, second, used, unused)
    } else {
        put_book(count, &tiers, nets, table, first, second, used, unused);
        0
    }
}
