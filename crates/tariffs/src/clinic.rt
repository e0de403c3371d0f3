ghost use Rattle.std.specs.Prelude.{◌≡◌, ◌≤◌, length};
ghost use Rattle.planning.specs.Amounts.{total};
ghost use Rattle.tariffs.specs.Laws.{visits_amounts};
ghost use Rattle.tariffs.specs.Prices.{clinic_price, plain_sum};

use crate::quote::quote_steps;
use crate::row::row_at;
use crate::tariff::Tariff;
use crate::visits::Visits;

// A row of minutes and a row of visits, one of each for each base action.
#[derive(Clone, Copy)]
pub struct Clinic<'a> {
    minutes: &'a [u16],
    visits: &'a [u16],
}

impl Tariff for Clinic<'_> {
    type Amount = Visits;

    ghost price = { λ s. clinic_price s.minutes.now s.visits.now };

    fn charge(&self, a: u16) -> Visits {
        Visits::new(
            u32::from(row_at(self.minutes, a, 0)),
            u32::from(row_at(self.visits, a, 0)),
        )
    }
}

impl<'a> Clinic<'a> {
    pub fn new(minutes: &'a [u16], visits: &'a [u16]) -> Clinic<'a>
        ensures minutes { result.minutes.now ≡ minutes.now }
        ensures visits { result.visits.now ≡ visits.now }
    {
        Clinic { minutes, visits }
    }
}

// What the steps come to under two rows: the plain sums, for 2,048 steps and fewer.
pub fn quote_visits<'a>(minutes: &'a [u16], visits: &'a [u16], steps: &[u16]) -> Visits
    ensures exact { result ≡ total visits_amounts (clinic_price minutes.now visits.now) steps.now }
    ensures minutes { length steps.now ≤ 2048 → result.minutes ≡ plain_sum minutes.now steps.now }
    ensures visits { length steps.now ≤ 2048 → result.visits ≡ plain_sum visits.now steps.now }
{
    quote_steps(&Clinic::new(minutes, visits), steps)
}
