ghost use Rattle.std.specs.Prelude.{◌≡◌};
ghost use Rattle.planning.specs.Amounts.{total};

use crate::amount::Amount;
use crate::tariff::Tariff;

// The joined amounts of a row of base steps.
pub fn quote_steps<F: Tariff>(tariff: &F, steps: &[u16]) -> F::Amount
    ensures { result ≡ total F.Amount.Amount.amounts (F.price tariff.now) steps.now }
{
    let mut sum = F::Amount::nought();
    for a in steps {
        sum = sum.join(tariff.charge(*a));
    }
    sum
}
