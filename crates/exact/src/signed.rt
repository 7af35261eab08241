// Signed numbers by their size and their sign.
ghost use Rattle.std.specs.Prelude.{◌≡◌, ◌^◌, ◌<◌, nat_abs};
ghost use Rattle.exact.specs.Signed.{or_zero, with_sign_of, towards_zero};

// z, or 0 if that is negative.
pub fn or_zero(z: i64) -> u64
    ensures { result ≡ or_zero z }
{
    if z < 0 { 0 } else { z as u64 }
}

// The size of z, its sign dropped.
pub fn magnitude(z: i64) -> u64
    ensures { result ≡ nat_abs z }
{
    z.unsigned_abs()
}

// The size m with the sign of z.
pub fn with_sign_of(z: i64, m: u64) -> i64
    requires { m < 2 ^ 63 }
    ensures { result ≡ with_sign_of z m }
{
    let size = m as i64;
    if z < 0 { -size } else { size }
}

// What is left of z when an amount is taken from its size: it never crosses zero.
pub fn towards_zero(z: i64, amount: u64) -> i64
    ensures { result ≡ towards_zero z amount }
{
    let size = z.unsigned_abs();
    if size <= amount {
        0
    } else if amount == 0 {
        z
    } else {
        with_sign_of(z, size - amount)
    }
}
