// Everything of an account at once: the figures, and the books and uses of all questions. A walk over the contracts, then the intercontract table.
// What the rows of a contract come to is worked out there, or kept in positions.
ghost use Rattle.std.specs.Prelude.{◌≡◌, true, List, map, ◌+◌, ◌*◌, ◌≤◌, ◌<◌, pos, nat_abs, length, get_or};
ghost use Rattle.record.specs.Layout.{Record, most_contract};
ghost use Rattle.account.specs.Check.{most_contracts};
ghost use Rattle.account.specs.Parts.{prompts_of, spreads_of, rates_of};
ghost use Rattle.account.specs.code.Rates.{RatesOf};
ghost use Rattle.account.specs.code.Lent.{account_in};
ghost use Rattle.account.specs.code.Standing.{Stands};
ghost use Rattle.account.specs.Joined.{account_of};
ghost use Rattle.account.specs.Records.{records};
ghost use Rattle.spread.specs.Accepted.{open_of, steps_of, sound, prompt_places};
ghost use Rattle.spread.specs.Touches.{touches, most_touches};
ghost use Rattle.spread.specs.Steps.{steps};
ghost use Rattle.spread.specs.code.Book.{Booked};
ghost use Rattle.spread.specs.code.Lent.{prompts_in, book_in};
ghost use Rattle.formulas.specs.Bounds.{longest_book, longest_uses, figures_each};
ghost use Rattle.formulas.specs.Deltas.{opens_with, interprompt};
ghost use Rattle.formulas.specs.code.Position.{position_in};
ghost use Rattle.formulas.specs.code.Promised.{BookFit, BookOf, BookRoom, LineOf, PositionFit, contract_with};
ghost use Rattle.margin.specs.Books.{table_question};
ghost use Rattle.margin.specs.Figures.{account_total};
ghost use Rattle.margin.specs.Places.{questions, lent_place};
ghost use Rattle.margin.specs.Questions.{after_over};
ghost use Rattle.margin.specs.code.Asked.{BookIs};
ghost use Rattle.margin.specs.code.Beside.{own_of, TiersOver, TiersKnown, Unspread};
ghost use Rattle.margin.specs.code.Lent.{ContractLent, ContractsWalked, TabledBy, TabledKnown, TableLent, lent_answer, LentAnswers, EverythingLent, EverythingOf};
ghost use Rattle.margin.specs.code.Positions.{PositionsTell, Known, ContractIn};
ghost use Rattle.margin.specs.code.Tabled.{TableCleared};
ghost use Rattle.margin.specs.declared.asking.Question.TheVariants.{Book, Uses};

use crate::books::{put_contract, put_table};
use crate::numbers::{
    FIGURES_EACH, LONGEST_BOOK, LONGEST_FIGURES, LONGEST_USES, put, put_unspread,
};
use crate::over::{TABLE, contract_asking, figures_count, rates_over, table_asking};
use crate::positions::Positions;
use crate::tabled::{place_line, put_formed};
use crate::uses::answer_uses;
use account::accounts::{Account, own_part, prompts_part, rows_part, spreads_part};
use account::answers::Refusal;
use account::lent::{
    NOTES, contract_number, contract_total, lend, part, record_total, whereabouts_of,
};
use account::parts::{CONTRACTS, ENTRIES};
use account::rates::Rates;
use exact::signed::magnitude;
use formulas::amount::Amount;
use formulas::books::put_contract_book;
use formulas::line::{Line, line_in};
use formulas::rows::{Position, put_position};
use formulas::tables::intercontract_table;
use record::bytes::RECORD_BYTES;
use record::fields::{SCENARIOS, unit};
use spread::plain::{deltas_from, plain};
use spread::{MOST_PROMPTS, MOST_SPREADS, Prompts, Table};

// How many questions there are for a book: each contract, and the intercontract table.
pub const QUESTIONS: usize = TABLE + 1;

// The places of all books, and of all uses.
pub const ALL_BOOKS: usize = LONGEST_BOOK * QUESTIONS;

pub const ALL_USES: usize = LONGEST_USES * QUESTIONS;

// What an account is answered that is asked for everything.
#[derive(Clone, Copy)]
pub struct Everything {
    pub figures: Result<(), Refusal>,
    pub books: Result<(), Refusal>,
    pub uses: Result<(), Refusal>,
}

// The book of a contract that was run, in its place where all places are lent.
fn lend_book(
    c: usize,
    prompts: &[u8],
    nets: &[i64; MOST_PROMPTS],
    spreads: &[u8],
    first: &[u64; MOST_SPREADS],
    second: &[u64; MOST_SPREADS],
    used: &[i64; MOST_PROMPTS],
    unused: &[i64; MOST_PROMPTS],
    touched: u64,
    out: &mut [i64],
)
    requires { (c ≤ most_contract) × ((length nets.now ≡ prompt_places) × (BookRoom (records prompts.now) nets.now (records spreads.now)
        × (BookOf (steps (map interprompt (records spreads.now))) (opens_with (records prompts.now) nets.now)
        (book_in first.now second.now used.now unused.now)
        × (longest_book * questions ≤ length out.old
        → (touched ≡ touches (steps (map interprompt (records spreads.now))) (opens_with (records prompts.now) nets.now))
        × (touched ≤ most_touches))))) }
    ensures { (whole : List Record) → BookIs whole c (steps (map interprompt (records spreads.now)))
        (opens_with (records prompts.now) nets.now)
        → out.new ≡ lent_place longest_book c (after_over whole (Book c)) out.old }
{
    if out.len() < ALL_BOOKS {
        return;
    }
    let start = LONGEST_BOOK * c;
    let end = start + LONGEST_BOOK;
    put_contract(
        &mut out[start..end],
        prompts,
        nets,
        spreads,
        first,
        second,
        used,
        unused,
        touched,
    );
}

// Who paid for what in it, likewise.
fn lend_uses(
    count: usize,
    c: usize,
    prompts: &[u8],
    spreads: &[u8],
    totals: &[i64; SCENARIOS],
    nets: &[i64; MOST_PROMPTS],
    shorts: u64,
    out: &mut [i64],
)
    requires { (c ≤ most_contract) × BookFit (records prompts.now) (records spreads.now) (position_in totals.now nets.now shorts) }
    ensures { (whole : List Record) → ContractIn whole count c (records prompts.now) (records spreads.now)
        (position_in totals.now nets.now shorts)
        → out.new ≡ lent_place longest_uses c (after_over whole (Uses c)) out.old }
{
    if out.len() < ALL_USES {
        return;
    }
    let asking = contract_asking(prompts, spreads, deltas_from(*nets));
    let start = LONGEST_USES * c;
    let end = start + LONGEST_USES;
    let _ = answer_uses(count, asking, &mut out[start..end]);
}

// The line of a contract, and its book and its uses in their places: its steps are run once for its line and its book, and what they touch is
// counted where its book is lent.
fn contract_in(
    own: &[u8],
    prompts: &[u8],
    spreads: &[u8],
    count: usize,
    c: usize,
    totals: &[i64; SCENARIOS],
    nets: &[i64; MOST_PROMPTS],
    shorts: u64,
    books: &mut [i64],
    uses: &mut [i64],
) -> Line
    requires { (c ≤ most_contract) × PositionFit own.now (records prompts.now) (records spreads.now) (position_in totals.now nets.now shorts) }
    ensures line { LineOf (contract_with own.now (records prompts.now) (records spreads.now)
        (position_in totals.now nets.now shorts)) result }
    ensures lent { (whole : List Record) → ContractIn whole count c (records prompts.now) (records spreads.now)
        (position_in totals.now nets.now shorts)
        → (books.new ≡ lent_place longest_book c (after_over whole (Book c)) books.old)
        × (uses.new ≡ lent_place longest_uses c (after_over whole (Uses c)) uses.old) }
{
    let mut first = [0; MOST_SPREADS];
    let mut second = [0; MOST_SPREADS];
    let mut used = [0; MOST_PROMPTS];
    let mut unused = [0; MOST_PROMPTS];
    let touched = put_contract_book(
        prompts,
        nets,
        spreads,
        &mut first,
        &mut second,
        &mut used,
        &mut unused,
        ALL_BOOKS <= books.len(),
    );
    lend_book(
        c, prompts, nets, spreads, &first, &second, &used, &unused, touched, books,
    );
    lend_uses(count, c, prompts, spreads, totals, nets, shorts, uses);
    line_in(
        own, prompts, spreads, totals, nets, shorts, &first, &second, &used, &unused,
    )
}

// The line of the i-th contract; its book and its uses likewise.
fn contract_over<'a>(
    morning: &'a [u8],
    noon: &'a [u8],
    account: &[u16; NOTES],
    i: usize,
    rates: Rates,
    books: &mut [i64],
    uses: &mut [i64],
) -> Line
    requires { Stands morning.now noon.now (account_in account.now)
        × ((i < (account_in account.now).contracts) × RatesOf (rates_of (account_of morning.now noon.now)) rates) }
    ensures { ContractLent (account_of morning.now noon.now) i result books.old uses.old
        books.new uses.new }
{
    let c = contract_number(account, i);
    let w = whereabouts_of(account, c);
    let own = own_part(morning, noon, w);
    let prompts = prompts_part(morning, noon, w);
    let rows = rows_part(morning, noon, w);
    let spreads = spreads_part(morning, noon, w);
    let mut totals = [0i64; SCENARIOS];
    let mut nets = [0i64; MOST_PROMPTS];
    let shorts = put_position(
        &mut totals,
        &mut nets,
        rates,
        unit(own) as u64,
        prompts,
        rows,
    );
    contract_in(
        own,
        prompts,
        spreads,
        record_total(account),
        c,
        &totals,
        &nets,
        shorts,
        books,
        uses,
    )
}

// The same of contract `c` of an account of so many records, by what its rows come to.
fn contract_from<'a>(
    morning: &'a [u8],
    noon: &'a [u8],
    account: &[u16; NOTES],
    count: usize,
    c: usize,
    p: Position,
    books: &mut [i64],
    uses: &mut [i64],
) -> Line
    requires { Stands morning.now noon.now (account_in account.now) × ((c ≤ most_contract)
        × PositionFit (own_of c (account_of morning.now noon.now)) (prompts_of c (account_of morning.now noon.now))
        (spreads_of c (account_of morning.now noon.now)) p) }
    ensures line { LineOf (contract_with (own_of c (account_of morning.now noon.now))
        (prompts_of c (account_of morning.now noon.now)) (spreads_of c (account_of morning.now noon.now)) p) result }
    ensures lent { (whole : List Record)
        → ContractIn whole count c (prompts_of c (account_of morning.now noon.now))
        (spreads_of c (account_of morning.now noon.now)) p
        → (books.new ≡ lent_place longest_book c (after_over whole (Book c)) books.old)
        × (uses.new ≡ lent_place longest_uses c (after_over whole (Uses c)) uses.old) }
{
    let w = whereabouts_of(account, c);
    let own = own_part(morning, noon, w);
    let prompts = prompts_part(morning, noon, w);
    let spreads = spreads_part(morning, noon, w);
    let nets = plain(p.nets);
    contract_in(
        own,
        prompts,
        spreads,
        count,
        c,
        &p.totals.0,
        &nets,
        p.shorts,
        books,
        uses,
    )
}

// A walk over the contracts, in file order: their lines in their places and the total behind them, no credit being known yet; their books and
// uses likewise; and what the intercontract table needs of them.
fn place_over<'a>(
    morning: &'a [u8],
    noon: &'a [u8],
    account: &[u16; NOTES],
    figures: &mut [i64],
    books: &mut [i64],
    uses: &mut [i64],
    tiers: &mut [u8; MOST_PROMPTS],
    nets: &mut [i64; MOST_PROMPTS],
    units: &mut [u64; CONTRACTS],
    prices: &mut [u64; CONTRACTS],
    sizes: &mut [u64; CONTRACTS],
)
    requires { Stands morning.now noon.now (account_in account.now) × ((figures_each * (account_in account.now).contracts + 1 ≤ length figures.old)
        × TableCleared tiers.old nets.old units.old prices.old sizes.old) }
    ensures { ContractsWalked (account_of morning.now noon.now) figures.old books.old
        uses.old figures.new books.new uses.new tiers.new nets.new
        units.new prices.new sizes.new }
{
    let count = contract_total(account);
    let rates = rates_over(morning, noon, account);
    let mut total: u64 = 0;
    for i in 0..count {
        let line = contract_over(morning, noon, account, i, rates, books, uses);
        let margin = place_line(i, line, figures, tiers, nets, units, prices, sizes);
        total += margin.0;
    }
    put(figures, count * FIGURES_EACH, total);
}

// The same by positions.
fn place_from<'a>(
    morning: &'a [u8],
    noon: &'a [u8],
    account: &[u16; NOTES],
    positions: Positions,
    figures: &mut [i64],
    books: &mut [i64],
    uses: &mut [i64],
    tiers: &mut [u8; MOST_PROMPTS],
    nets: &mut [i64; MOST_PROMPTS],
    units: &mut [u64; CONTRACTS],
    prices: &mut [u64; CONTRACTS],
    sizes: &mut [u64; CONTRACTS],
)
    requires { Stands morning.now noon.now (account_in account.now) × (Known (account_of morning.now noon.now) positions
        × ((figures_each * (account_in account.now).contracts + 1 ≤ length figures.old)
        × TableCleared tiers.old nets.old units.old prices.old sizes.old)) }
    ensures { (whole : List Record) → PositionsTell (account_of morning.now noon.now) positions whole
        → ContractsWalked whole figures.old books.old uses.old figures.new books.new
        uses.new tiers.new nets.new units.new prices.new sizes.new }
{
    let count = contract_total(account);
    let mut total: u64 = 0;
    for i in 0..count {
        let c = contract_number(account, i);
        let line = contract_from(
            morning,
            noon,
            account,
            positions.records,
            c,
            positions.at[c],
            books,
            uses,
        );
        let margin = place_line(i, line, figures, tiers, nets, units, prices, sizes);
        total += margin.0;
    }
    put(figures, count * FIGURES_EACH, total);
}

// Who paid for what in the intercontract table, in the last place of all.
fn lend_table_uses(
    entries: &[u8],
    records: usize,
    count: usize,
    tiers: &[u8; MOST_PROMPTS],
    nets: &[i64; MOST_PROMPTS],
    out: &mut [i64],
)
    requires { TiersKnown entries.now (prompts_in count tiers.now nets.now) }
    ensures { (whole : List Record) → TiersOver entries.now (prompts_in count tiers.now nets.now) whole
        → records ≡ length whole
        → out.new ≡ lent_place longest_uses table_question (after_over whole (Uses table_question)) out.old }
{
    if out.len() < ALL_USES {
        return;
    }
    let prompts = Prompts {
        count,
        tier: *tiers,
        net: deltas_from(*nets),
    };
    let asking = table_asking(entries, prompts);
    let start = LONGEST_USES * TABLE;
    let end = start + LONGEST_USES;
    let _ = answer_uses(records, asking, &mut out[start..end]);
}

// The book of the table that was run, likewise.
fn lend_table_book(
    count: usize,
    tiers: &[u8; MOST_PROMPTS],
    nets: &[i64; MOST_PROMPTS],
    table: Table,
    first: &[u64; MOST_SPREADS],
    second: &[u64; MOST_SPREADS],
    used: &[i64; MOST_PROMPTS],
    unused: &[i64; MOST_PROMPTS],
    out: &mut [i64],
)
    requires { (sound (prompts_in count tiers.now nets.now) table ≡ true)
        × (((length tiers.now ≡ prompt_places) × (length nets.now ≡ prompt_places))
        × Booked (prompts_in count tiers.now nets.now) table (book_in first.now second.now used.now unused.now)) }
    ensures { (whole : List Record)
        → BookIs whole table_question (steps_of table) (open_of (prompts_in count tiers.now nets.now))
        → out.new ≡ lent_place longest_book table_question (after_over whole (Book table_question)) out.old }
{
    if out.len() < ALL_BOOKS {
        return;
    }
    let start = LONGEST_BOOK * TABLE;
    let end = start + LONGEST_BOOK;
    put_table(
        &mut out[start..end],
        count,
        tiers,
        nets,
        table,
        first,
        second,
        used,
        unused,
    );
}

// The book of a table without spreads in its place, by the net deltas of so many contracts.
fn lend_unspread(count: usize, nets: &[i64; MOST_PROMPTS], out: &mut [i64])
    requires { (count ≤ most_contracts) × (length nets.now ≡ prompt_places) }
    ensures { (whole : List Record) → Unspread whole count nets.now
        → out.new ≡ lent_place longest_book table_question (after_over whole (Book table_question)) out.old }
{
    if out.len() < ALL_BOOKS {
        return;
    }
    let start = LONGEST_BOOK * TABLE;
    let end = start + LONGEST_BOOK;
    put_unspread(&mut out[start..end], count, nets);
}

// The figures of an account whose contracts are in their places, and the book and the uses of its intercontract table in theirs. Without
// intercontract spreads the figures are complete, and nobody paid; else the table's steps are run once for the credits and its book.
fn table_over(
    entries: &[u8],
    count: usize,
    records: usize,
    tiers: &[u8; MOST_PROMPTS],
    nets: &[i64; MOST_PROMPTS],
    units: &[u64; CONTRACTS],
    prices: &[u64; CONTRACTS],
    sizes: &[u64; CONTRACTS],
    figures: &mut [i64],
    books: &mut [i64],
    uses: &mut [i64],
)
    requires { (figures_each * count + 1 ≤ length figures.old)
        × TabledKnown entries.now count records figures.old tiers.now nets.now units.now prices.now sizes.now }
    ensures { (whole : List Record) → TabledBy entries.now count records figures.old tiers.now
        nets.now units.now prices.now sizes.now whole
        → TableLent whole figures.old books.old uses.old figures.new books.new
        uses.new }
{
    if entries.len() < RECORD_BYTES {
        lend_unspread(count, nets, books);
        return;
    }
    let table = intercontract_table(entries);
    let mut first = [0; MOST_SPREADS];
    let mut second = [0; MOST_SPREADS];
    let mut used = [0; MOST_PROMPTS];
    let mut unused = [0; MOST_PROMPTS];
    spread::book::put_book(
        count,
        tiers,
        nets,
        table,
        &mut first,
        &mut second,
        &mut used,
        &mut unused,
    );
    put_formed(
        count, entries, units, prices, sizes, &first, &second, figures,
    );
    lend_table_book(
        count, tiers, nets, table, &first, &second, &used, &unused, books,
    );
    lend_table_uses(entries, records, count, tiers, nets, uses);
}

// Everything of an account, where enough numbers are lent for the figures.
pub(crate) fn put_over<'a>(
    morning: &'a [u8],
    noon: &'a [u8],
    account: &[u16; NOTES],
    figures: &mut [i64],
    books: &mut [i64],
    uses: &mut [i64],
)
    requires { Stands morning.now noon.now (account_in account.now) × (figures_each * (account_in account.now).contracts + 1 ≤ length figures.old) }
    ensures { EverythingLent (account_of morning.now noon.now) figures.old books.old
        uses.old figures.new books.new uses.new }
{
    let mut tiers = [0u8; MOST_PROMPTS];
    let mut nets = [0i64; MOST_PROMPTS];
    let mut units = [0u64; CONTRACTS];
    let mut prices = [0u64; CONTRACTS];
    let mut sizes = [0u64; CONTRACTS];
    place_over(
        morning,
        noon,
        account,
        figures,
        books,
        uses,
        &mut tiers,
        &mut nets,
        &mut units,
        &mut prices,
        &mut sizes,
    );
    table_over(
        part(morning, noon, account, ENTRIES),
        contract_total(account),
        record_total(account),
        &tiers,
        &nets,
        &units,
        &prices,
        &sizes,
        figures,
        books,
        uses,
    );
}

// The same by positions, of an account that but for its rows stands in the files.
pub(crate) fn put_from<'a>(
    morning: &'a [u8],
    noon: &'a [u8],
    account: &[u16; NOTES],
    positions: Positions,
    figures: &mut [i64],
    books: &mut [i64],
    uses: &mut [i64],
)
    requires { Stands morning.now noon.now (account_in account.now) × (Known (account_of morning.now noon.now) positions
        × (figures_each * (account_in account.now).contracts + 1 ≤ length figures.old)) }
    ensures { (whole : List Record) → PositionsTell (account_of morning.now noon.now) positions whole
        → EverythingLent whole figures.old books.old uses.old figures.new books.new uses.new }
{
    let mut tiers = [0u8; MOST_PROMPTS];
    let mut nets = [0i64; MOST_PROMPTS];
    let mut units = [0u64; CONTRACTS];
    let mut prices = [0u64; CONTRACTS];
    let mut sizes = [0u64; CONTRACTS];
    place_from(
        morning,
        noon,
        account,
        positions,
        figures,
        books,
        uses,
        &mut tiers,
        &mut nets,
        &mut units,
        &mut prices,
        &mut sizes,
    );
    table_over(
        part(morning, noon, account, ENTRIES),
        contract_total(account),
        positions.records,
        &tiers,
        &nets,
        &units,
        &prices,
        &sizes,
        figures,
        books,
        uses,
    );
}

// The same however many numbers are lent for the figures: where they are too few, none of them is written.
fn lend_over<'a>(
    morning: &'a [u8],
    noon: &'a [u8],
    account: &[u16; NOTES],
    figures: &mut [i64],
    books: &mut [i64],
    uses: &mut [i64],
)
    requires { Stands morning.now noon.now (account_in account.now) }
    ensures { EverythingLent (account_of morning.now noon.now) figures.old books.old
        uses.old figures.new books.new uses.new }
{
    if figures_count(account) <= figures.len() {
        put_over(morning, noon, account, figures, books, uses);
    } else {
        let mut unlent = [0i64; LONGEST_FIGURES];
        put_over(morning, noon, account, &mut unlent, books, uses);
    }
}

// The same by positions.
fn lend_from<'a>(
    morning: &'a [u8],
    noon: &'a [u8],
    account: &[u16; NOTES],
    positions: Positions,
    figures: &mut [i64],
    books: &mut [i64],
    uses: &mut [i64],
)
    requires { Stands morning.now noon.now (account_in account.now) × Known (account_of morning.now noon.now) positions }
    ensures { (whole : List Record) → PositionsTell (account_of morning.now noon.now) positions whole
        → EverythingLent whole figures.old books.old uses.old figures.new books.new uses.new }
{
    if figures_count(account) <= figures.len() {
        put_from(morning, noon, account, positions, figures, books, uses);
    } else {
        let mut unlent = [0i64; LONGEST_FIGURES];
        put_from(morning, noon, account, positions, &mut unlent, books, uses);
    }
}

// What is answered where so many numbers are needed and so many lent.
fn lent_answer(records: usize, needed: usize, lent: usize) -> Result<(), Refusal>
    ensures { result ≡ lent_answer records needed lent }
{
    if lent < needed {
        return Err(Refusal::TooFewNumbers(records));
    }
    Ok(())
}

// What everything is answered where so many numbers are needed for the figures, and so many lent for each.
fn lent_answers(
    records: usize,
    needed: usize,
    figures: usize,
    books: usize,
    uses: usize,
) -> Everything
    ensures { LentAnswers records needed figures books uses result }
{
    Everything {
        figures: lent_answer(records, needed, figures),
        books: lent_answer(records, ALL_BOOKS, books),
        uses: lent_answer(records, ALL_USES, uses),
    }
}

// Everything of an account, and what it is answered.
fn everything_lent<'a>(
    morning: &'a [u8],
    noon: &'a [u8],
    account: &[u16; NOTES],
    figures: &mut [i64],
    books: &mut [i64],
    uses: &mut [i64],
) -> Everything
    requires { Stands morning.now noon.now (account_in account.now) }
    ensures { EverythingOf (account_of morning.now noon.now) figures.old books.old
        uses.old result figures.new books.new uses.new }
{
    let answers = lent_answers(
        record_total(account),
        figures_count(account),
        figures.len(),
        books.len(),
        uses.len(),
    );
    lend_over(morning, noon, account, figures, books, uses);
    answers
}

// The same of an account by value, which is lent.
pub fn everything_over<'a>(
    morning: &'a [u8],
    noon: &'a [u8],
    account: Account,
    figures: &mut [i64],
    books: &mut [i64],
    uses: &mut [i64],
) -> Everything
    requires { Stands morning.now noon.now account }
    ensures { EverythingOf (account_of morning.now noon.now) figures.old books.old
        uses.old result figures.new books.new uses.new }
{
    let mut notes = [0u16; NOTES];
    lend(account, &mut notes);
    everything_lent(morning, noon, &notes, figures, books, uses)
}

// The same by positions.
fn everything_lent_from<'a>(
    morning: &'a [u8],
    noon: &'a [u8],
    account: &[u16; NOTES],
    positions: Positions,
    figures: &mut [i64],
    books: &mut [i64],
    uses: &mut [i64],
) -> Everything
    requires { Stands morning.now noon.now (account_in account.now) × Known (account_of morning.now noon.now) positions }
    ensures { (whole : List Record) → PositionsTell (account_of morning.now noon.now) positions whole
        → EverythingOf whole figures.old books.old uses.old result figures.new books.new uses.new }
{
    let answers = lent_answers(
        positions.records,
        figures_count(account),
        figures.len(),
        books.len(),
        uses.len(),
    );
    lend_from(morning, noon, account, positions, figures, books, uses);
    answers
}

// The same of an account by value, which is lent.
pub fn everything_from<'a>(
    morning: &'a [u8],
    noon: &'a [u8],
    account: Account,
    positions: Positions,
    figures: &mut [i64],
    books: &mut [i64],
    uses: &mut [i64],
) -> Everything
    requires { Stands morning.now noon.now account × Known (account_of morning.now noon.now) positions }
    ensures { (whole : List Record) → PositionsTell (account_of morning.now noon.now) positions whole
        → EverythingOf whole figures.old books.old uses.old result figures.new books.new uses.new }
{
    let mut notes = [0u16; NOTES];
    lend(account, &mut notes);
    everything_lent_from(morning, noon, &notes, positions, figures, books, uses)
}

// The total of the margins, which stands last in the figures.
fn total_in(account: &[u16; NOTES], figures: &[i64; LONGEST_FIGURES]) -> Amount
    requires { (account_in account.now).contracts ≤ most_contracts }
    ensures { result.0 ≡ nat_abs (get_or figures.now (figures_each * (account_in account.now).contracts) (pos 0)) }
{
    let last = FIGURES_EACH * contract_total(account);
    Amount(magnitude(figures[last]))
}

// That of an account in its files.
pub fn total_lent<'a>(morning: &'a [u8], noon: &'a [u8], account: &[u16; NOTES]) -> Amount
    requires { Stands morning.now noon.now (account_in account.now) }
    ensures { result.0 ≡ account_total (account_of morning.now noon.now) }
{
    let mut figures = [0i64; LONGEST_FIGURES];
    let mut books = [0i64; 0];
    let mut uses = [0i64; 0];
    put_over(morning, noon, account, &mut figures, &mut books, &mut uses);
    total_in(account, &figures)
}

// The same of an account by value, which is lent.
pub fn total_over<'a>(morning: &'a [u8], noon: &'a [u8], account: Account) -> Amount
    requires { Stands morning.now noon.now account }
    ensures { result.0 ≡ account_total (account_of morning.now noon.now) }
{
    let mut notes = [0u16; NOTES];
    lend(account, &mut notes);
    total_lent(morning, noon, &notes)
}

// The same by positions.
fn total_lent_from<'a>(
    morning: &'a [u8],
    noon: &'a [u8],
    account: &[u16; NOTES],
    positions: Positions,
) -> Amount
    requires { Stands morning.now noon.now (account_in account.now) × Known (account_of morning.now noon.now) positions }
    ensures { (whole : List Record) → PositionsTell (account_of morning.now noon.now) positions whole
        → result.0 ≡ account_total whole }
{
    let mut figures = [0i64; LONGEST_FIGURES];
    let mut books = [0i64; 0];
    let mut uses = [0i64; 0];
    put_from(
        morning,
        noon,
        account,
        positions,
        &mut figures,
        &mut books,
        &mut uses,
    );
    total_in(account, &figures)
}

// The same of an account by value, which is lent.
pub fn total_from<'a>(
    morning: &'a [u8],
    noon: &'a [u8],
    account: Account,
    positions: Positions,
) -> Amount
    requires { Stands morning.now noon.now account × Known (account_of morning.now noon.now) positions }
    ensures { (whole : List Record) → PositionsTell (account_of morning.now noon.now) positions whole
        → result.0 ≡ account_total whole }
{
    let mut notes = [0u16; NOTES];
    lend(account, &mut notes);
    total_lent_from(morning, noon, &notes, positions)
}
