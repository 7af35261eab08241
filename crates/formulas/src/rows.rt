// What a contract's rows come to: its sixteen totals, its prompts' net deltas and its short lots.
ghost use Rattle.std.specs.Prelude.{◌≡◌, List, [], ◌∷◌, ◌++◌, ℕ, ◌<◌, ◌≤◌, ◌+◌, ◌-◌, ◌*◌, ℤ, pos, nat_abs, neg_ℤ, ◌+ℤ◌, ◌-ℤ◌, ◌*ℤ◌, length, get_or, replicate};
ghost use Rattle.spread.specs.Accepted.{prompt_places};
ghost use Rattle.spread.specs.code.Lent.{deltas_from};
ghost use Rattle.exact.specs.Rounding.{half_away_to};
ghost use Rattle.record.specs.Layout.{Record, day, hundred_thousand, most_unit, scenario_count};
ghost use Rattle.account.specs.Check.{most_prompts, most_rows};
ghost use Rattle.account.specs.Products.{converted_at, most_conversion, most_factor, most_per_tick};
ghost use Rattle.account.specs.code.Rates.{RatesOf};
ghost use Rattle.account.specs.Records.{records, record_count};
ghost use Rattle.formulas.specs.Bounds.{most_delta, most_product, most_row_delta};
ghost use Rattle.formulas.specs.Deltas.{row_delta};
ghost use Rattle.formulas.specs.Margin as Margin;
ghost use Rattle.formulas.specs.Margin.{short_options, short_lots};
ghost use Rattle.formulas.specs.Scanning.{total};
ghost use Rattle.formulas.specs.code.Position.{RowFit, RowsFit, RatedBy, FactorsFit, Sized, AtMost, Added, DaysOf, products, own_products};
ghost use Rattle.formulas.specs.code.Position.{converted_products, net_on, adds_on, with_nets, FirstPlace, OnePlace, Guessed, RowsPlaced, OneDay, PositionOf};
ghost use Rattle.formulas.specs.code.Position.{position_in, days_in, Bounded, WithRows, HasRows, deltas_in, rows_net};
ghost use Rattle.formulas.specs.code.Raised.{SumsRoom, loss_bits, turn_of, raise_of, turned_bits, raised_by, raised_products, settled, most_raised};
ghost use Rattle.formulas.specs.declared.rows.Position.{Position};

use account::rates::{Factors, Rates, converted, factors_of, per_tick};
use exact::rounding::half_away_to;
use exact::signed::magnitude;
use record::bytes::RECORD_BYTES;
use record::fields::{SCENARIOS, currency, day, delta, loss, lots, row_type};
use spread::plain::{deltas_from, plain};
use spread::{Delta, MOST_PROMPTS};

// The sixteen totals, in hundredths of the currency, scenario 1 first.
#[derive(Clone, Copy)]
pub struct Totals(pub [i64; SCENARIOS]);

// What a contract's rows come to. The net deltas are those of its prompts in file order, and 0 beyond them.
#[derive(Clone, Copy)]
pub struct Position {
    pub totals: Totals,
    pub nets: [Delta; MOST_PROMPTS],
    pub shorts: u64,
}

// The days of a contract's prompts, the first `count`. Beyond them stands the latest day of all.
#[derive(Clone, Copy)]
pub struct Days {
    pub count: usize,
    pub day: [u32; MOST_PROMPTS],
}

// What a loss is raised by: the most that a loss or a gain can be.
const RAISE: u64 = 100_000;

// How many numbers four bytes hold.
const FOUR_BYTES: u64 = 1 << 32;

// Four bytes in which every bit is 1.
const ONES: u32 = u32::MAX;

// Every day is as early, or earlier.
const LATEST: u32 = u32::MAX;

// The last byte of a day has so many values.
const GUESSES: usize = 256;

// Lots × value × loss, rounded to the contract's unit.
fn product(each: i64, loss: i64, unit: u64) -> i64
    requires { (nat_abs each ≤ most_per_tick) × (nat_abs loss ≤ hundred_thousand) × (unit ≤ most_unit) }
    ensures { Sized most_product (half_away_to (each *ℤ loss) unit) result }
{
    half_away_to(each * loss, unit)
}

// The same in another currency, converted at its rate.
fn converted_product(f: Factors, each: i64, loss: i64, unit: u64) -> i64
    requires { (nat_abs each ≤ most_per_tick)
        × ((nat_abs loss ≤ hundred_thousand)
        × ((unit ≤ most_unit)
        × ((f.raised ≤ most_factor) × ((f.lowered ≤ most_factor) × (nat_abs (converted_at f.raised f.lowered (each *ℤ loss)) ≤ most_conversion))))) }
    ensures { Sized most_product (half_away_to (converted_at f.raised f.lowered (each *ℤ loss)) unit) result }
{
    half_away_to(converted(f, each * loss), unit)
}

// Lots × delta.
fn row_delta(row: &[u8]) -> Delta
    requires { RowFit row.now }
    ensures { Sized most_row_delta (row_delta row.now) result.0 }
{
    Delta(lots(row) * delta(row))
}

// The lots of a short position, 0 of a long one.
fn short(lots: i64) -> u64
    ensures { result ≡ Margin.short lots }
{
    if lots < 0 { magnitude(lots) } else { 0 }
}

// The short lots of a call or put, 0 of a forward. The lots are read first, so that the test is no branch.
fn short_options(row: &[u8]) -> u64
    ensures { result ≡ short_options row.now }
{
    let lots_short = short(lots(row));
    if row_type(row) == 0 { 0 } else { lots_short }
}

// One row more in the margin currency, added to each total.
fn add_own(totals: &mut [i64; SCENARIOS], unit: u64, row: &[u8])
    requires { (unit ≤ most_unit) × (RowFit row.now × AtMost scenario_count ((most_rows - 1) * most_product) totals.old) }
    ensures { Added scenario_count (own_products unit row.now) totals.old totals.new }
{
    let each = per_tick(row);
    for (s, total) in totals.iter_mut().enumerate() {
        *total += product(each, loss(row, s + 1), unit);
    }
}

// The same with a row in another currency.
fn add_converted(totals: &mut [i64; SCENARIOS], f: Factors, unit: u64, row: &[u8])
    requires { (unit ≤ most_unit) × (RowFit row.now × (FactorsFit f.raised f.lowered row.now
        × AtMost scenario_count ((most_rows - 1) * most_product) totals.old)) }
    ensures { Added scenario_count (converted_products f.raised f.lowered unit row.now) totals.old totals.new }
{
    let each = per_tick(row);
    for (s, total) in totals.iter_mut().enumerate() {
        *total += converted_product(f, each, loss(row, s + 1), unit);
    }
}

// A loss in four bytes: a gain counts down from how many numbers they hold.
fn bits(loss: i64) -> u32
    requires { nat_abs loss ≤ hundred_thousand }
    ensures { result ≡ loss_bits loss }
{
    ((loss + FOUR_BYTES as i64) as u64 % FOUR_BYTES) as u32
}

// The bits of a loss that are turned: all where lots × value are negative, else none.
fn turn_of(each: i64) -> u32
    ensures { result ≡ turn_of each }
{
    if each < 0 { ONES } else { 0 }
}

// What a loss is raised by: one more where its bits are turned, since they are then one less than the loss with the other sign.
fn raise_of(each: i64) -> u64
    ensures { result ≡ raise_of each }
{
    if each < 0 { RAISE + 1 } else { RAISE }
}

// Bits as they are or, where the turn has its first bit, all turned.
fn turned(bits: u32, turn: u32) -> u32
    ensures { result ≡ turned_bits bits turn }
{
    if ONES / 2 < turn { !bits } else { bits }
}

// A loss with the sign of lots × value, whose turn and raise these are, raised so that it is no longer negative.
fn raised(loss: i64, turn: u32, raise: u64) -> u64
    requires { (nat_abs loss ≤ hundred_thousand) × (raise ≤ hundred_thousand + 1) }
    ensures { (each : ℤ) → turn ≡ turn_of each → raise ≡ raise_of each → result ≡ raised_by each loss }
{
    (turned(bits(loss), turn) as u64 + raise) % FOUR_BYTES
}

// One row more in the margin currency at a unit of one hundredth, added to the sums. The loss takes the sign of lots × value before it is raised: both
// factors have 32 bits and no sign, so that several are multiplied at once. The turn stands once for each scenario, so that it is no branch.
fn add_raised(sums: &mut [i64; SCENARIOS], each: i64, row: &[u8])
    requires { (nat_abs each ≤ most_per_tick) × (RowFit row.now × AtMost scenario_count ((most_rows - 1) * most_raised) sums.old) }
    ensures { Added scenario_count (raised_products each row.now) sums.old sums.new }
{
    let size = magnitude(each) % FOUR_BYTES;
    let raise = raise_of(each);
    let turn = [turn_of(each); SCENARIOS];
    for s in 0..SCENARIOS {
        sums[s] += (size * raised(loss(row, s + 1), turn[s], raise)) as i64;
    }
}

// What a sum comes to: the sizes of its rows' lots × value are `sizes` together, and each loss was raised.
fn unraised(sum: i64, sizes: u64) -> i64
    requires { (nat_abs sum ≤ most_rows * most_raised) × (sizes ≤ most_rows * most_per_tick) }
    ensures { Sized (2 * (most_rows * most_raised)) (sum -ℤ pos (sizes * hundred_thousand)) result }
{
    sum - (sizes * RAISE) as i64
}

// The totals with what stands in the sums.
fn settle(totals: &mut [i64; SCENARIOS], sums: &[i64; SCENARIOS], sizes: u64)
    requires { SumsRoom most_rows totals.old sums.now sizes }
    ensures { totals.new ≡ settled totals.old sums.now sizes }
{
    for s in 0..SCENARIOS {
        totals[s] += unraised(sums[s], sizes);
    }
}

// One row more, in the totals or, where it is neither converted nor rounded, in the sums. It gives the sizes of lots × value of the rows in these together.
fn add_row(
    totals: &mut [i64; SCENARIOS],
    sums: &mut [i64; SCENARIOS],
    sizes: u64,
    rates: Rates,
    unit: u64,
    row: &[u8],
) -> u64
    requires { (unit ≤ most_unit) × (RowFit row.now × (RatedBy rates (row.now ∷ []) × SumsRoom (most_rows - 1) totals.old sums.old sizes)) }
    ensures added { (held : List Record) → RatesOf held rates → Added scenario_count (products held unit row.now)
        (settled totals.old sums.old sizes) (settled totals.new sums.new result) }
    ensures room { (n : ℕ) → SumsRoom n totals.old sums.old sizes → SumsRoom (n + 1) totals.new sums.new result }
{
    let c = currency(row);
    if c != 0 {
        add_converted(totals, factors_of(rates, c), unit, row);
        return sizes;
    }
    if unit != 1 {
        add_own(totals, unit, row);
        return sizes;
    }
    let each = per_tick(row);
    add_raised(sums, each, row);
    sizes + magnitude(each)
}

// The day of a row or of a prompt.
fn day_of(r: &[u8]) -> u32
    ensures { result ≡ day r.now }
{
    day(r) as u32
}

// The days of a contract's prompts.
pub fn days_of(prompts: &[u8]) -> Days
    requires { record_count prompts.now ≤ most_prompts }
    ensures { DaysOf (records prompts.now) result }
{
    let mut day = [LATEST; MOST_PROMPTS];
    for (j, p) in prompts.chunks_exact(RECORD_BYTES).enumerate() {
        day[j] = day_of(p);
    }
    Days {
        count: prompts.len() / RECORD_BYTES,
        day,
    }
}

// What no rows come to.
pub fn flat() -> Position
    ensures { (rates : List Record) (unit : ℕ) (prompts : List Record) → length prompts ≤ most_prompts → PositionOf rates unit prompts [] result }
{
    Position {
        totals: Totals([0; SCENARIOS]),
        nets: [Delta(0); MOST_PROMPTS],
        shorts: 0,
    }
}

// The first place of a day, and the number of days where there is none.
fn first_place(days: &[u32; MOST_PROMPTS], count: usize, d: u32) -> usize
    requires { count ≤ most_prompts }
    ensures { FirstPlace days.now count d result }
{
    days[..count]
        .iter()
        .position(|day| *day == d)
        .unwrap_or(count)
}

// For each last byte of a day a place where such a day may stand. A guess is compared before it is used: it need only be a place.
fn guesses(days: &[u32; MOST_PROMPTS], count: usize) -> [u8; GUESSES]
    requires { count ≤ most_prompts }
    ensures { Guessed count result }
{
    let mut guess = [0; GUESSES];
    for (j, day) in days[..count].iter().enumerate() {
        guess[(*day % 256) as usize] = j as u8;
    }
    guess
}

// The place of a day that stands in one. It is looked for by a guess, then where it must stand if the days rise.
fn place_of(days: &[u32; MOST_PROMPTS], guess: &[u8; GUESSES], count: usize, d: u32) -> usize
    requires { (count ≤ most_prompts) × (Guessed count guess.now × OnePlace count days.now d) }
    ensures { (result < count) × (get_or days.now result 0 ≡ d) }
{
    let guessed = guess[(d % 256) as usize] as usize;
    if days[guessed] == d {
        return guessed;
    }
    let place = days.partition_point(|day| *day < d);
    if place < count && days[place] == d {
        return place;
    }
    first_place(days, count, d)
}

// A row's delta added to the net delta of the prompt of its day.
fn add_delta(
    nets: &mut [i64; MOST_PROMPTS],
    days: &[u32; MOST_PROMPTS],
    guess: &[u8; GUESSES],
    count: usize,
    d: u32,
    more: Delta,
)
    requires { (count ≤ most_prompts) × ((Guessed count guess.now × OnePlace count days.now d)
        × ((nat_abs more.0 ≤ most_delta) × AtMost prompt_places most_delta nets.old)) }
    ensures { Added count (adds_on days.now d more.0) nets.old nets.new }
{
    let j = place_of(days, guess, count, d);
    nets[j] += more.0;
}

// Net deltas with more rows, in one walk over these.
fn add_nets(nets: &mut [i64; MOST_PROMPTS], days: &[u32; MOST_PROMPTS], prompts: usize, rows: &[u8])
    requires { (prompts ≤ most_prompts) × (RowsPlaced prompts days.now (records rows.now)
        × (RowsFit (records rows.now) × AtMost prompt_places ((most_rows - length (records rows.now)) * most_row_delta) nets.old)) }
    ensures { Added prompts (λ j. net_on (records rows.now) (get_or days.now j 0)) nets.old nets.new }
{
    let guess = guesses(days, prompts);
    for row in rows.chunks_exact(RECORD_BYTES) {
        add_delta(nets, days, &guess, prompts, day_of(row), row_delta(row));
    }
}

// Totals with more rows, in one walk over these; the short lots of the rows.
fn add_totals(totals: &mut [i64; SCENARIOS], rates: Rates, unit: u64, rows: &[u8]) -> u64
    requires { (unit ≤ most_unit)
        × (RowsFit (records rows.now) × (RatedBy rates (records rows.now)
        × AtMost scenario_count ((most_rows - length (records rows.now)) * most_product) totals.old)) }
    ensures added { (held : List Record) → RatesOf held rates → Added scenario_count (λ k. total held unit (records rows.now) (k + 1))
        totals.old totals.new }
    ensures shorts { result ≡ short_lots (records rows.now) }
{
    let mut sums = [0; SCENARIOS];
    let mut sizes = 0;
    let mut shorts = 0;
    for row in rows.chunks_exact(RECORD_BYTES) {
        sizes = add_row(totals, &mut sums, sizes, rates, unit, row);
        shorts += short_options(row);
    }
    settle(totals, &sums, sizes);
    shorts
}

// Totals and net deltas with more rows, in a walk each, so that the sums stay in registers; what the rows add to the short lots.
fn add_rows(
    totals: &mut [i64; SCENARIOS],
    nets: &mut [i64; MOST_PROMPTS],
    days: &[u32; MOST_PROMPTS],
    prompts: usize,
    rates: Rates,
    unit: u64,
    rows: &[u8],
) -> u64
    requires { (unit ≤ most_unit)
        × (((prompts ≤ most_prompts) × RowsPlaced prompts days.now (records rows.now))
        × (RowsFit (records rows.now) × (RatedBy rates (records rows.now)
        × Bounded (most_rows - length (records rows.now)) (position_in totals.old nets.old 0)))) }
    ensures added { (held : List Record) → RatesOf held rates
        → WithRows held unit (days_in prompts days.now) (position_in totals.old nets.old 0) (records rows.now)
        (position_in totals.new nets.new result) }
    ensures most { Bounded most_rows (position_in totals.new nets.new result) }
{
    add_nets(nets, days, prompts, rows);
    add_totals(totals, rates, unit, rows)
}

// What rows come to with more rows. A ticket is one row more.
pub fn with_rows(p: Position, days: Days, rates: Rates, unit: u64, rows: &[u8]) -> Position
    requires { (unit ≤ most_unit)
        × (((days.count ≤ most_prompts) × RowsPlaced days.count days.day (records rows.now))
        × (RowsFit (records rows.now) × (RatedBy rates (records rows.now) × Bounded (most_rows - length (records rows.now)) p))) }
    ensures added { (held : List Record) → RatesOf held rates → WithRows held unit days p (records rows.now) result }
    ensures more { (held prompts earlier : List Record) → RatesOf held rates → DaysOf prompts days → PositionOf held unit prompts earlier p
        → PositionOf held unit prompts (earlier ++ records rows.now) result }
    ensures most { Bounded most_rows result }
{
    let mut totals = p.totals.0;
    let mut nets = plain(p.nets);
    let more = add_rows(
        &mut totals,
        &mut nets,
        &days.day,
        days.count,
        rates,
        unit,
        rows,
    );
    Position {
        totals: Totals(totals),
        nets: deltas_from(nets),
        shorts: p.shorts + more,
    }
}

// The net deltas alone of what a contract's rows come to, put in a lent array of zeros.
pub fn put_net_deltas(nets: &mut [i64; MOST_PROMPTS], prompts: &[u8], rows: &[u8])
    requires { ((record_count prompts.now ≤ most_prompts) × OneDay (records prompts.now) (records rows.now))
        × (RowsFit (records rows.now) × (nets.old ≡ replicate prompt_places (pos 0))) }
    ensures { (rates : List Record) (unit : ℕ) → PositionOf rates unit (records prompts.now) (records rows.now)
        (with_nets rates unit (records rows.now) (deltas_from nets.new)) }
{
    let days = days_of(prompts);
    add_nets(nets, &days.day, days.count, rows);
}

// The same in an array of their own.
pub fn nets_of(prompts: &[u8], rows: &[u8]) -> [Delta; MOST_PROMPTS]
    requires { ((record_count prompts.now ≤ most_prompts) × OneDay (records prompts.now) (records rows.now)) × RowsFit (records rows.now) }
    ensures { (rates : List Record) (unit : ℕ) → PositionOf rates unit (records prompts.now) (records rows.now)
        (with_nets rates unit (records rows.now) result) }
{
    let mut nets = [0; MOST_PROMPTS];
    put_net_deltas(&mut nets, prompts, rows);
    deltas_from(nets)
}

// The net delta of rows together, of whatever days: that of a contract, each of whose rows is of one prompt's day.
pub fn rows_net(rows: &[u8]) -> Delta
    requires { RowsFit (records rows.now) }
    ensures { Sized most_delta (rows_net (records rows.now)) result.0 }
{
    let mut net = 0;
    for row in rows.chunks_exact(RECORD_BYTES) {
        net += row_delta(row).0;
    }
    Delta(net)
}

// Totals with others taken away, one by one.
fn totals_without(mut totals: Totals, gone: Totals) -> Totals
    requires { AtMost scenario_count (most_rows * most_product) totals.0 × AtMost scenario_count (most_rows * most_product) gone.0 }
    ensures { Added scenario_count (λ k. neg_ℤ (get_or gone.0 k (pos 0))) totals.0 result.0 }
{
    for s in 0..SCENARIOS {
        totals.0[s] -= gone.0[s];
    }
    totals
}

// Net deltas with others taken away, one by one.
fn nets_without(
    mut nets: [Delta; MOST_PROMPTS],
    gone: [Delta; MOST_PROMPTS],
) -> [Delta; MOST_PROMPTS]
    requires { AtMost prompt_places most_delta (deltas_in nets) × AtMost prompt_places most_delta (deltas_in gone) }
    ensures { Added prompt_places (λ j. neg_ℤ (get_or (deltas_in gone) j (pos 0))) (deltas_in nets) (deltas_in result) }
{
    for j in 0..MOST_PROMPTS {
        nets[j].0 -= gone[j].0;
    }
    nets
}

// What rows come to without the last of them, which it has: the position before these rows, in every number.
pub fn without_rows(p: Position, days: Days, rates: Rates, unit: u64, rows: &[u8]) -> Position
    requires { (unit ≤ most_unit)
        × (((days.count ≤ most_prompts) × RowsPlaced days.count days.day (records rows.now))
        × (RowsFit (records rows.now) × (RatedBy rates (records rows.now) × (Bounded most_rows p × HasRows rates unit days (records rows.now) p)))) }
    ensures { (held : List Record) (before : Position) → RatesOf held rates → WithRows held unit days before (records rows.now) p
        → result ≡ before }
{
    let gone = with_rows(flat(), days, rates, unit, rows);
    Position {
        totals: totals_without(p.totals, gone.totals),
        nets: nets_without(p.nets, gone.nets),
        shorts: p.shorts - gone.shorts,
    }
}

// What a contract's rows come to, at the account's rates, by its unit and its prompts' days: put in lent arrays of zeros, but for its short lots.
pub fn put_position(
    totals: &mut [i64; SCENARIOS],
    nets: &mut [i64; MOST_PROMPTS],
    rates: Rates,
    unit: u64,
    prompts: &[u8],
    rows: &[u8],
) -> u64
    requires { (unit ≤ most_unit)
        × (((record_count prompts.now ≤ most_prompts) × OneDay (records prompts.now) (records rows.now))
        × (RowsFit (records rows.now) × (RatedBy rates (records rows.now)
        × ((totals.old ≡ replicate scenario_count (pos 0)) × (nets.old ≡ replicate prompt_places (pos 0)))))) }
    ensures is { (held : List Record) → RatesOf held rates → PositionOf held unit (records prompts.now) (records rows.now)
        (position_in totals.new nets.new result) }
    ensures most { Bounded most_rows (position_in totals.new nets.new result) }
{
    let days = days_of(prompts);
    add_rows(totals, nets, &days.day, days.count, rates, unit, rows)
}

// The same as a position.
pub fn position_of(rates: Rates, unit: u64, prompts: &[u8], rows: &[u8]) -> Position
    requires { (unit ≤ most_unit) × (((record_count prompts.now ≤ most_prompts) × OneDay (records prompts.now) (records rows.now))
        × (RowsFit (records rows.now) × RatedBy rates (records rows.now))) }
    ensures is { (held : List Record) → RatesOf held rates → PositionOf held unit (records prompts.now) (records rows.now) result }
    ensures most { Bounded most_rows result }
{
    let mut totals = [0; SCENARIOS];
    let mut nets = [0; MOST_PROMPTS];
    let shorts = put_position(&mut totals, &mut nets, rates, unit, prompts, rows);
    Position {
        totals: Totals(totals),
        nets: deltas_from(nets),
        shorts,
    }
}
