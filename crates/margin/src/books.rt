// The numbers of a question's book, by the spread steps.
ghost use Rattle.std.specs.Prelude.{◌≡◌, true, map, ◌+◌, ◌*◌, ◌≤◌, length};
ghost use Rattle.std.proofs.lemmas.List.Edits.{sets};
ghost use Rattle.account.specs.Check.{most_prompts, most_spreads};
ghost use Rattle.account.specs.Records.{records, record_count};
ghost use Rattle.spread.specs.Accepted.{open_of, steps_of, sound, prompt_places};
ghost use Rattle.spread.specs.Touches.{touches, most_touches};
ghost use Rattle.spread.specs.Steps.{steps};
ghost use Rattle.spread.specs.code.Book.{Booked};
ghost use Rattle.spread.specs.code.Lent.{prompts_in, book_in};
ghost use Rattle.formulas.specs.Deltas.{opens_with, interprompt};
ghost use Rattle.formulas.specs.code.Promised.{BookOf, BookRoom};
ghost use Rattle.margin.specs.Books.{book_by};

use crate::numbers::{put_numbers, put_unspread};
use formulas::books::put_contract_book;
use record::bytes::RECORD_BYTES;
use spread::plain::plain;
use spread::touches::touches_in;
use spread::{MOST_PROMPTS, MOST_SPREADS, Prompts, Table};

// How many numbers a book has: three for each prompt, two for each spread, and how often a prompt is touched.
pub(crate) fn book_count(prompts: Prompts, table: Table) -> usize
    requires { sound prompts table ≡ true }
    ensures { result ≡ 3 * prompts.count + 2 * table.count + 1 }
{
    3 * prompts.count + 2 * table.count + 1
}

// The same of a contract's book, by its records.
pub(crate) fn contract_count(prompts: &[u8], spreads: &[u8]) -> usize
    requires { (record_count prompts.now ≤ most_prompts) × (record_count spreads.now ≤ most_spreads) }
    ensures { result ≡ 3 * record_count prompts.now + 2 * record_count spreads.now + 1 }
{
    3 * (prompts.len() / RECORD_BYTES) + 2 * (spreads.len() / RECORD_BYTES) + 1
}

// The numbers of a book that was run over prompts that are lent, from the front.
pub(crate) fn put_table(
    out: &mut [i64],
    count: usize,
    tiers: &[u8; MOST_PROMPTS],
    nets: &[i64; MOST_PROMPTS],
    table: Table,
    first: &[u64; MOST_SPREADS],
    second: &[u64; MOST_SPREADS],
    used: &[i64; MOST_PROMPTS],
    unused: &[i64; MOST_PROMPTS],
)
    requires { (sound (prompts_in count tiers.now nets.now) table ≡ true)
        × (((length tiers.now ≡ prompt_places) × (length nets.now ≡ prompt_places)) × ((3 * count + 2 * table.count + 1 ≤ length out.old)
        × Booked (prompts_in count tiers.now nets.now) table (book_in first.now second.now used.now unused.now))) }
    ensures { out.new ≡ sets out.old 0
        (book_by (steps_of table) (open_of (prompts_in count tiers.now nets.now))) }
{
    let touches = touches_in(count, tiers, nets, table, first, second);
    put_numbers(
        out,
        count,
        table.count,
        nets,
        first,
        second,
        used,
        unused,
        touches,
    );
}

// The numbers of the book of spreads, which is run over prompts that are lent, from the front.
fn run_table(
    out: &mut [i64],
    count: usize,
    tiers: &[u8; MOST_PROMPTS],
    nets: &[i64; MOST_PROMPTS],
    table: Table,
)
    requires { (sound (prompts_in count tiers.now nets.now) table ≡ true)
        × (((length tiers.now ≡ prompt_places) × (length nets.now ≡ prompt_places)) × (3 * count + 2 * table.count + 1 ≤ length out.old)) }
    ensures { out.new ≡ sets out.old 0
        (book_by (steps_of table) (open_of (prompts_in count tiers.now nets.now))) }
{
    let mut first = [0; MOST_SPREADS];
    let mut second = [0; MOST_SPREADS];
    let mut used = [0; MOST_PROMPTS];
    let mut unused = [0; MOST_PROMPTS];
    spread::book::put_book(
        count,
        tiers,
        nets,
        table,
        &mut first,
        &mut second,
        &mut used,
        &mut unused,
    );
    put_table(
        out, count, tiers, nets, table, &first, &second, &used, &unused,
    );
}

// The numbers of the book that is asked about, from the front.
pub(crate) fn put_asked(out: &mut [i64], prompts: Prompts, table: Table)
    requires { (sound prompts table ≡ true) × (3 * prompts.count + 2 * table.count + 1 ≤ length out.old) }
    ensures { out.new ≡ sets out.old 0 (book_by (steps_of table) (open_of prompts)) }
{
    let nets = plain(prompts.net);
    if table.count == 0 {
        put_unspread(out, prompts.count, &nets);
    } else {
        run_table(out, prompts.count, &prompts.tier, &nets, table);
    }
}

// The numbers of a contract's book that was run, from the front.
pub(crate) fn put_contract(
    out: &mut [i64],
    prompts: &[u8],
    nets: &[i64; MOST_PROMPTS],
    spreads: &[u8],
    first: &[u64; MOST_SPREADS],
    second: &[u64; MOST_SPREADS],
    used: &[i64; MOST_PROMPTS],
    unused: &[i64; MOST_PROMPTS],
    touched: u64,
)
    requires { (3 * record_count prompts.now + 2 * record_count spreads.now + 1 ≤ length out.old) × ((length nets.now ≡ prompt_places)
        × (BookRoom (records prompts.now) nets.now (records spreads.now)
        × (BookOf (steps (map interprompt (records spreads.now))) (opens_with (records prompts.now) nets.now)
        (book_in first.now second.now used.now unused.now)
        × ((touched ≡ touches (steps (map interprompt (records spreads.now))) (opens_with (records prompts.now) nets.now))
        × (touched ≤ most_touches))))) }
    ensures { out.new ≡ sets out.old 0
        (book_by (steps (map interprompt (records spreads.now))) (opens_with (records prompts.now) nets.now)) }
{
    put_numbers(
        out,
        prompts.len() / RECORD_BYTES,
        spreads.len() / RECORD_BYTES,
        nets,
        first,
        second,
        used,
        unused,
        touched,
    );
}

// The numbers of a contract's book from the front, by the net deltas of its prompts. Without spreads nothing is run.
pub(crate) fn run_contract(
    out: &mut [i64],
    prompts: &[u8],
    nets: &[i64; MOST_PROMPTS],
    spreads: &[u8],
)
    requires { (3 * record_count prompts.now + 2 * record_count spreads.now + 1 ≤ length out.old) × ((length nets.now ≡ prompt_places)
        × BookRoom (records prompts.now) nets.now (records spreads.now)) }
    ensures { out.new ≡ sets out.old 0
        (book_by (steps (map interprompt (records spreads.now))) (opens_with (records prompts.now) nets.now)) }
{
    if spreads.len() < RECORD_BYTES {
        put_unspread(out, prompts.len() / RECORD_BYTES, nets);
        return;
    }
    let mut first = [0; MOST_SPREADS];
    let mut second = [0; MOST_SPREADS];
    let mut used = [0; MOST_PROMPTS];
    let mut unused = [0; MOST_PROMPTS];
    let touched = put_contract_book(
        prompts,
        nets,
        spreads,
        &mut first,
        &mut second,
        &mut used,
        &mut unused,
        true,
    );
    put_contract(
        out, prompts, nets, spreads, &first, &second, &used, &unused, touched,
    );
}
