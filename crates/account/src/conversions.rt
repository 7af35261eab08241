// Refusals 14 and 15: a row whose currency has no rate, else one with a conversion beyond the most.
ghost use Rattle.std.specs.Prelude.{◌≡◌, List, ◌≤◌};
ghost use Rattle.record.specs.Layout.{Record};
ghost use Rattle.record.specs.Within.{RateWithin};
ghost use Rattle.account.specs.Accepted.{Each};
ghost use Rattle.account.specs.Checked.{first_rate_fault};
ghost use Rattle.account.specs.Conversions.{in_another, other_row, row_answer, Row};
ghost use Rattle.account.specs.code.Rates.{RatesOf, HoldsRates};
ghost use Rattle.account.specs.Records.{records};

use crate::answers::Refusal;
use crate::rates::{Rates, conversion_beyond, has_rate};
use crate::stretches::{record_count, whole_at};
use record::fields::{currency, kind};

fn in_another(row: &[u8]) -> bool
    ensures { result ≡ in_another row.now }
{
    currency(row) != 0
}

// Whether a record of any kind is such a row.
pub(crate) fn is_other_row(r: &[u8]) -> bool
    ensures { result ≡ other_row r.now }
{
    in_another(r) & (kind(r) == 3)
}

// Of the row that is record `k`. A row in the margin currency gets neither.
pub fn row_answer(t: Rates, row: &[u8], k: usize) -> Result<(), Refusal>
    requires { Row row.now × HoldsRates t }
    ensures { (rates : List Record) → RatesOf rates t → Each RateWithin rates → result ≡ row_answer rates k row.now }
{
    if currency(row) == 0 {
        return Ok(());
    }
    if has_rate(t, row) {
        if conversion_beyond(t, row) {
            return Err(Refusal::ConversionBeyond(k));
        }
        return Ok(());
    }
    Err(Refusal::NoRate(k))
}

// The first of the rows from record `k` on.
pub(crate) fn rows_answer(t: Rates, rows: &[u8], k: usize) -> Result<(), Refusal>
    requires { Each Row (records rows.now) × (HoldsRates t × (k ≤ 65535)) }
    ensures { (rates : List Record) → RatesOf rates t → Each RateWithin rates → result ≡ first_rate_fault k rates (records rows.now) }
{
    for i in 0..record_count(rows) {
        row_answer(t, whole_at(rows, i), k + i)?;
    }
    Ok(())
}
