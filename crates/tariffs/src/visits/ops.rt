ghost use Rattle.std.specs.Prelude.{◌≡◌};
ghost use Rattle.tariffs.specs.Laws.{visits_amounts};

use super::Visits;
use crate::amount::Amount;

impl Visits {
    pub fn new(minutes: u32, visits: u32) -> Visits
        ensures minutes { result.minutes ≡ minutes }
        ensures visits { result.visits ≡ visits }
    {
        Visits { minutes, visits }
    }

    pub fn minutes(self) -> u32
        ensures { result ≡ self.minutes }
    {
        self.minutes
    }

    pub fn visits(self) -> u32
        ensures { result ≡ self.visits }
    {
        self.visits
    }
}

impl Amount for Visits {
    ghost amounts = { visits_amounts };

    fn nought() -> Visits {
        Visits {
            minutes: 0,
            visits: 0,
        }
    }

    fn join(self, other: Visits) -> Visits {
        Visits {
            minutes: self.minutes.wrapping_add(other.minutes),
            visits: self.visits.wrapping_add(other.visits),
        }
    }

    fn take_back(self, other: Visits) -> Visits {
        Visits {
            minutes: self.minutes.wrapping_sub(other.minutes),
            visits: self.visits.wrapping_sub(other.visits),
        }
    }
}
