// Rounding to a whole number, and to a unit.
ghost use Rattle.std.specs.Prelude.{◌≡◌, ◌*◌, ◌^◌, ◌<◌, nat_abs};
ghost use Rattle.exact.specs.Rounding.{half_up, half_up_to, half_away, half_away_to};

use crate::signed::with_sign_of;

// n / d rounded once, a half going to the number above; 0 where d is 0.
pub fn half_up(n: u64, d: u64) -> u64
    ensures { result ≡ half_up n d }
{
    if d == 0 {
        return 0;
    }
    let rest = n % d;
    if d - rest <= rest { n / d + 1 } else { n / d }
}

// n / d rounded once to a multiple of the unit, halves up. At a unit of 1 it is `half_up`.
pub fn half_up_to(n: u64, d: u64, unit: u64) -> u64
    requires { (d * unit < 2 ^ 64) × (half_up_to n d unit < 2 ^ 64) }
    ensures { result ≡ half_up_to n d unit }
{
    if unit == 1 {
        half_up(n, d)
    } else {
        half_up(n, d * unit) * unit
    }
}

// z × m / d rounded once, halves away from zero. The product is never formed whole: each d in the size of z gives m, and only
// what is left is multiplied and divided.
pub fn half_away(z: i64, m: u64, d: u64) -> i64
    requires { (0 < d) × ((d * m < 2 ^ 64) × (half_up (nat_abs z * m) d < 2 ^ 63)) }
    ensures { result ≡ half_away z m d }
{
    let size = z.unsigned_abs();
    with_sign_of(z, size / d * m + half_up(size % d * m, d))
}

// z rounded to a multiple of the unit, halves away from zero. At a unit of 1 it is z.
pub fn half_away_to(z: i64, unit: u64) -> i64
    requires { half_up_to (nat_abs z) 1 unit < 2 ^ 63 }
    ensures { result ≡ half_away_to z unit }
{
    if unit == 1 {
        z
    } else {
        with_sign_of(z, half_up_to(z.unsigned_abs(), 1, unit))
    }
}
