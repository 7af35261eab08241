// The file's order of entries, as their places in the list.
ghost use Rattle.std.specs.Prelude.{◌≡◌, ◌≤◌, ◌<◌};
ghost use Rattle.account.specs.Check.{most_records};
ghost use Rattle.account.specs.Records.{record_count};
ghost use Rattle.writing.specs.Order as Order;
ghost use Rattle.writing.specs.Order.{of_its_kind, Keyed, Ordered};

use crate::places::sort;
use account::check::MOST_RECORDS;
use account::stretches::{record_at, record_count};
use record::bytes::RECORD_BYTES;
use record::fields::{contract, day, kind};

pub(crate) const MOST_BYTES: usize = MOST_RECORDS * RECORD_BYTES;

const FOUR_BYTES: usize = 4294967296;

const FIVE_BYTES: usize = 256 * FOUR_BYTES;

fn of_its_kind(r: &[u8]) -> usize
    ensures { (result ≡ of_its_kind r.now) × (result < 1099511627776) }
{
    match kind(r) {
        2 => contract(r) * FOUR_BYTES + day(r),
        5 => 0,
        _ => contract(r),
    }
}

// What entries go by: the kind, and then what entries of their kind go by.
fn rank(r: &[u8]) -> usize
    ensures { result ≡ Order.rank r.now }
{
    kind(r) * FIVE_BYTES + of_its_kind(r)
}

fn keys_of(entries: &[u8]) -> [usize; MOST_RECORDS]
    requires { record_count entries.now ≤ most_records }
    ensures { Keyed entries.now result }
{
    let mut keys = [0usize; MOST_RECORDS];
    let count = record_count(entries);
    for (k, key) in keys[..count].iter_mut().enumerate() {
        *key = rank(record_at(entries, k));
    }
    keys
}

// The places of the entries in the file's order, first of all.
pub(crate) fn order_of(entries: &[u8]) -> [u16; MOST_RECORDS]
    requires { record_count entries.now ≤ most_records }
    ensures { Ordered entries.now result }
{
    let keys = keys_of(entries);
    let mut order = [0u16; MOST_RECORDS];
    let count = record_count(entries);
    sort(&keys, &mut order[..count]);
    order
}
