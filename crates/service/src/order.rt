ghost use Rattle.std.specs.Prelude.{◌≡◌, [], ◌∷◌, Some, None, MatchOption};
ghost use Rattle.planning.specs.Piles.{Built, meaning};
ghost use Rattle.planning.specs.Orders.{load_call, charge, quoted};
ghost use Rattle.service.specs.Calls.{held, Does};

pub mod carry_out;
pub mod edits;
pub mod trim;

use planning::Fault;
use plans::Plan;
use tariffs::quote::quote_steps;
use tariffs::{Amount, Tariff};
use tasks::judge;
use tasks::task::{BuiltTask, Task};

// A plan over a pile, under a tariff.
#[derive(Drop)]
pub struct Order<P, F> {
    pile: P,
    tariff: F,
    plan: Option<Plan>,
}

// Clauses write out amounts, price and meaning: a definition can't take the members of a bound, so a name for them would take all
// three.
impl<P: Task, F: Tariff> Order<P, F> {
    // Holds no plan yet.
    pub fn open(pile: P, tariff: F) -> Order<P, F>
        ensures pile { result.pile ≡ pile }
        ensures tariff { result.tariff ≡ tariff }
        ensures plan { held result.plan ≡ None }
    {
        Order {
            pile,
            tariff,
            plan: None,
        }
    }

    // Takes the row, if it solves the task of the pile.
    pub fn load(&mut self, row: &[u16]) -> Result<(), Fault>
        ensures { Does (Built (P.Task.pile self.old.pile)) (load_call (meaning (P.Task.pile self.old.pile)) (held self.old.plan) row.now) self.old result self.new }
    {
        judge(&self.pile, row)?;
        self.plan = Plan::empty().then(row);
        Ok(())
    }

    // The plan that the order holds.
    pub fn plan(&self) -> Option<&[u16]>
        ensures { MatchOption result (held self.now.plan ≡ None) (λ s. held self.now.plan ≡ Some s.now) }
    {
        self.plan.as_ref().map(|plan| plan.as_slice())
    }

    // What one step is charged: the joined amounts of its base steps.
    fn charge_step(&self, a: u16) -> F::Amount
        ensures { Built (P.Task.pile self.now.pile) → result ≡ charge F.Amount.Amount.amounts (F.Tariff.price self.now.tariff) (meaning (P.Task.pile self.now.pile)) (a ∷ []) }
    {
        quote_steps(&self.tariff, self.pile.base_steps(a).as_slice())
    }

    // What a row of steps is charged.
    fn charge_all(&self, steps: &[u16]) -> F::Amount
        ensures { Built (P.Task.pile self.now.pile) → result ≡ charge F.Amount.Amount.amounts (F.Tariff.price self.now.tariff) (meaning (P.Task.pile self.now.pile)) steps.now }
    {
        steps.iter().fold(F::Amount::nought(), |sum, a| sum.join(self.charge_step(*a)))
    }

    // The quote of the plan; nought with no plan.
    pub fn quote(&self) -> F::Amount
        ensures { Built (P.Task.pile self.now.pile) → result ≡ quoted F.Amount.Amount.amounts (F.Tariff.price self.now.tariff) (meaning (P.Task.pile self.now.pile)) (held self.now.plan) }
    {
        match &self.plan {
            Some(plan) => self.charge_all(plan.as_slice()),
            None => F::Amount::nought(),
        }
    }
}

// An order over a pile that is always built charges each action of it the joined amounts of its base steps.
impl<P: BuiltTask, F: Tariff> Tariff for Order<P, F> {
    type Amount = F::Amount;

    ghost price = { λ s a. charge F.Amount.Amount.amounts (F.Tariff.price s.tariff) (meaning (P.Task.pile s.pile)) (a ∷ []) };

    fn charge(&self, a: u16) -> F::Amount {
        self.charge_step(a)
    }
}

impl<P: Task + Drop, F: Tariff + Drop> Order<P, F> {
    // Answers the quote, and uses the order up.
    pub fn close(self) -> F::Amount
        ensures { Built (P.Task.pile self.pile) → result ≡ quoted F.Amount.Amount.amounts (F.Tariff.price self.tariff) (meaning (P.Task.pile self.pile)) (held self.plan) }
    {
        self.quote()
    }
}
