ghost use Rattle.std.specs.Prelude.{◌≡◌, ℕ, true, List, is_ok, Ok, Some};
ghost use Rattle.planning.specs.Orders.{trim_call};
ghost use Rattle.planning.specs.Piles.{Built, meaning};
ghost use Rattle.planning.specs.Trims.{Spare, Trims};
ghost use Rattle.service.specs.Calls.{held, Does};

use super::Order;
use planning::{Fault, Refusal};
use tariffs::Tariff;
use tasks::task::Task;

impl<P: Task, F: Tariff> Order<P, F> {
    // Leaves out the earliest step that can be, again and again, and answers the credit of all that left.
    pub fn trim(&mut self) -> Result<F::Amount, Fault>
        ensures does { Does (Built (P.Task.pile self.old.pile)) (trim_call F.Amount.Amount.amounts (F.Tariff.price self.old.tariff) (meaning (P.Task.pile self.old.pile)) (held self.old.plan)) self.old result self.new }
        ensures means { Built (P.Task.pile self.old.pile) → is_ok result ≡ true → (plan left : List ℕ) → held self.old.plan ≡ Some plan → held self.new.plan ≡ Some left → Trims (meaning (P.Task.pile self.old.pile)) plan left }
        ensures idle { Built (P.Task.pile self.old.pile) → (plan : List ℕ) → held self.old.plan ≡ Some plan → Spare (meaning (P.Task.pile self.old.pile)) plan → (result ≡ Ok F.Amount.Amount.amounts.nought) × (held self.new.plan ≡ Some plan) }
    {
        // not by `held_plan`: no proof closes of a plan that is lent so and then replaced
        let Some(plan) = &self.plan else {
            return Err(Fault::at_place(Refusal::NoPlan, 0));
        };
        let trimmed = plans::trim(&self.pile, plan);
        let credit = self.charge_all(trimmed.gone.as_slice());
        self.plan = Some(trimmed.plan);
        Ok(credit)
    }
}
