// "Write the file too" (request 2026-06): the account file of a list of entries.
#![tactic(auto)]

ghost use Rattle.std.specs.Prelude.{◌≡◌};
ghost use Rattle.writing.specs.Written.{WrittenBy};

use crate::filling::fill;
use crate::order::{MOST_BYTES, order_of};
use crate::verdict::verdict_on;
use account::answers::Refusal;
use record::bytes::RECORD_BYTES;

mod places; // places.rt: a stable sort of places by their keys
mod order; // order.rt: the file's order of entries
mod filling; // filling.rt: the entries put in that order
mod checking; // checking.rt: the check of the written file, through the order
mod verdict; // verdict.rt: what the written file would get

// An entry is a record as the file has it, 96 bytes, and the entries stand one after the other, in any order. The file is written to the
// front of the lent bytes, and how many bytes it has comes back; a refusal writes nothing and names the place of the entry at fault, from 0.
pub fn write(entries: &[u8], out: &mut [u8]) -> Result<usize, Refusal>
    ensures { WrittenBy entries.now out.old result out.new }
{
    if MOST_BYTES < entries.len() {
        return Err(Refusal::TooLong);
    }
    if entries.len() % RECORD_BYTES != 0 {
        return Err(Refusal::CutRecord);
    }
    let order = order_of(entries);
    verdict_on(entries, &order)?;
    if out.len() < entries.len() {
        return Err(Refusal::TooFewBytes);
    }
    fill(entries, &order, 0, entries.len() / RECORD_BYTES, out);
    Ok(entries.len())
}
