// What the written file would get, naming the entry at fault by its place in the list.
ghost use Rattle.std.specs.Prelude.{◌≡◌, false};
ghost use Rattle.account.specs.Check.{too_long, cut_record};
ghost use Rattle.writing.specs.Order.{Ordered};
ghost use Rattle.writing.specs.Written.{as_entered, verdict_on};

use crate::checking::check_written;
use crate::places::place_at;
use account::answers::{Refusal, number_of, record_of, refusal_of};

fn as_entered(order: &[u16], answer: Result<(), Refusal>) -> Result<(), Refusal>
    ensures { result ≡ as_entered order.now answer }
{
    let number = number_of(answer);
    if number < 3 {
        return answer;
    }
    refusal_of(number, usize::from(place_at(order, record_of(answer))))
}

pub(crate) fn verdict_on(entries: &[u8], order: &[u16]) -> Result<(), Refusal>
    requires { Ordered entries.now order.now × ((too_long entries.now ≡ false) × (cut_record entries.now ≡ false)) }
    ensures { result ≡ verdict_on entries.now }
{
    as_entered(order, check_written(entries, order))
}
