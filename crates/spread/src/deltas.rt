// Deltas: their side of the market and their size.
ghost use Rattle.std.specs.Prelude.{◌≡◌, nat_abs};
ghost use Rattle.exact.specs.Signed.{negative};

use crate::Delta;

impl Delta {
    pub fn is_short(self) -> bool
        ensures { result ≡ negative self.0 }
    {
        self.0 < 0
    }

    // The size, its sign dropped.
    pub fn size(self) -> u64
        ensures { result ≡ nat_abs self.0 }
    {
        self.0.unsigned_abs()
    }
}
