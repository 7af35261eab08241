// The largest of sixteen totals.
ghost use Rattle.std.specs.Prelude.{◌≡◌, cond};
ghost use Rattle.std.specs.Int.Signed.{lt_z};
ghost use Rattle.exact.specs.Signed.{larger};
ghost use Rattle.exact.specs.Largest.{IsLargest};

// A total and its number, counted from 1.
#[derive(Clone, Copy)]
pub struct NumberedTotal {
    pub value: i64,
    pub number: usize,
}

// The place before `best`, unless its value is below that of `best`.
fn or_earlier(best: NumberedTotal, value: i64, number: usize) -> NumberedTotal
    ensures value { result.value ≡ larger value best.value }
    ensures number { result.number ≡ cond (lt_z value best.value) best.number number }
{
    if value < best.value {
        best
    } else {
        NumberedTotal { value, number }
    }
}

// The largest total, and the lowest number holding it, from the last total to the first.
pub fn largest(totals: [i64; 16]) -> NumberedTotal
    ensures { IsLargest totals result.value result.number }
{
    let mut best = NumberedTotal {
        value: totals[15],
        number: 16,
    };
    for i in (0..15).rev() {
        best = or_earlier(best, totals[i], i + 1);
    }
    best
}
