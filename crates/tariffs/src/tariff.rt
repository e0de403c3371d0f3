ghost use Rattle.std.specs.Prelude.{◌≡◌, ℕ};

use crate::amount::Amount;

// An amount of its own kind for each base action, always the same one.
pub trait Tariff {
    type Amount: Amount + Copy;

    ghost price: { Self → ℕ → Self.Amount };

    fn charge(&self, a: u16) -> Self::Amount
        ensures { result ≡ price self.now a };
}
