ghost use Rattle.std.specs.Prelude.{◌≡◌};
ghost use Rattle.tariffs.specs.Laws.{cents_amounts};

use super::Cents;
use crate::amount::Amount;

impl Cents {
    pub fn new(value: u64) -> Cents
        ensures { result.value ≡ value }
    {
        Cents { value }
    }

    pub fn value(self) -> u64
        ensures { result ≡ self.value }
    {
        self.value
    }
}

impl Amount for Cents {
    ghost amounts = { cents_amounts };

    fn nought() -> Cents {
        Cents { value: 0 }
    }

    fn join(self, other: Cents) -> Cents {
        Cents {
            value: self.value.wrapping_add(other.value),
        }
    }

    fn take_back(self, other: Cents) -> Cents {
        Cents {
            value: self.value.wrapping_sub(other.value),
        }
    }
}
