ghost use Rattle.std.specs.Prelude.{◌≡◌, ◌≤◌, length};
ghost use Rattle.planning.specs.Amounts.{total};
ghost use Rattle.tariffs.specs.Laws.{cents_amounts};
ghost use Rattle.tariffs.specs.Prices.{bank_price, plain_sum};

use crate::amount::Amount;
use crate::cents::Cents;
use crate::quote::quote_steps;
use crate::row::row_at;
use crate::tariff::Tariff;

// A row of cents, one for each base action.
#[derive(Clone, Copy)]
pub struct Bank<'a> {
    cents: &'a [u32],
}

impl Tariff for Bank<'_> {
    type Amount = Cents;

    ghost price = { λ s. bank_price s.cents.now };

    fn charge(&self, a: u16) -> Cents {
        Cents::new(u64::from(row_at(self.cents, a, 0)))
    }
}

impl<'a> Bank<'a> {
    pub fn new(cents: &'a [u32]) -> Bank<'a>
        ensures { result.cents.now ≡ cents.now }
    {
        Bank { cents }
    }
}

// What the steps come to under a row of cents: the plain sum, for 2,048 steps and fewer.
pub fn quote_cents(cents: &[u32], steps: &[u16]) -> Cents
    ensures exact { result ≡ total cents_amounts (bank_price cents.now) steps.now }
    ensures plain { length steps.now ≤ 2048 → result.value ≡ plain_sum cents.now steps.now }
{
    quote_steps(&Bank::new(cents), steps)
}
