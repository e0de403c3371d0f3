ghost use Rattle.std.specs.Prelude.{◌≡◌, ℕ, ◌+◌, ◌-◌, ◌<◌, ◌≤◌, false, List, length, is_ok, Some, None, MatchResult};
ghost use Rattle.planning.specs.Faults.{at_place};
ghost use Rattle.planning.specs.declared.refusal.Refusal.TheVariants.{NoPlan};
ghost use Rattle.planning.specs.Edits.{splice, tried, OnlyForm};
ghost use Rattle.planning.specs.Orders.{drop_call, swap_call, fold_call, unfold_call, taken_or};
ghost use Rattle.planning.specs.Piles.{Built, meaning};
ghost use Rattle.planning.specs.Places.{action_at};
ghost use Rattle.service.specs.Calls.{held, step_at, steps_at, Does, TopMacro};

use super::Order;
use planning::{Fault, Refusal};
use plans::Plan;
use tariffs::Tariff;
use tasks::judge;
use tasks::task::Task;
use tasks::verdict::MOST_STEPS;

impl<P: Task, F: Tariff> Order<P, F> {
    // The plan held.
    fn held_plan(&self) -> Result<&Plan, Fault>
        ensures { MatchResult result (λ p. self.now.plan ≡ Some p.now) (λ f. (self.now.plan ≡ None) × (f ≡ at_place NoPlan 0)) }
    {
        self.plan
            .as_ref()
            .ok_or(Fault::at_place(Refusal::NoPlan, 0))
    }

    // The step at place `i`.
    fn step_at(&self, i: usize) -> Result<u16, Fault>
        ensures { result ≡ step_at (held self.now.plan) i }
    {
        let steps = self.held_plan()?.as_slice();
        let step = i.checked_sub(1).and_then(|k| steps.get(k).copied());
        step.ok_or(Fault::at_place(Refusal::NoStep, i))
    }

    // The steps at places `i` and `i + 1`.
    fn steps_at(&self, i: usize) -> Result<(u16, u16), Fault>
        ensures { result ≡ steps_at (held self.now.plan) i }
    {
        let first = self.step_at(i)?;
        match self.held_plan()?.as_slice().get(i) {
            Some(second) => Ok((first, *second)),
            None => Err(Fault::at_place(Refusal::NoStep, i)),
        }
    }

    // Takes the plan with `part` in place of the `n` steps from place `i` on, if it is not too long and solves the task of the pile.
    fn replace(&mut self, i: usize, n: usize, part: &[u16]) -> Result<(), Fault>
        ensures pile { self.new.pile ≡ self.old.pile }
        ensures tariff { self.new.tariff ≡ self.old.tariff }
        ensures kept { is_ok result ≡ false → self.new ≡ self.old }
        ensures does { (plan : List ℕ) → held self.old.plan ≡ Some plan → i - 1 + n ≤ length plan → Does (Built (P.Task.pile self.old.pile)) (taken_or (Some plan) (tried (meaning (P.Task.pile self.old.pile)) (splice plan (i - 1) n part.now))) self.old result self.new }
    {
        let Some(edited) = self.held_plan()?.splice(i.saturating_sub(1), n, part) else {
            return Err(Fault::at_place(Refusal::TooManySteps, MOST_STEPS + 1));
        };
        judge(&self.pile, edited.as_slice())?;
        self.plan = Some(edited);
        Ok(())
    }

    // Leaves step `i` out, and answers its credit.
    pub fn drop(&mut self, i: usize) -> Result<F::Amount, Fault>
        ensures { Does (Built (P.Task.pile self.old.pile)) (drop_call F.Amount.Amount.amounts (F.Tariff.price self.old.tariff) (meaning (P.Task.pile self.old.pile)) (held self.old.plan) i) self.old result self.new }
    {
        let a = self.step_at(i)?;
        let credit = self.charge_step(a);
        self.replace(i, 1, &[])?;
        Ok(credit)
    }

    // Exchanges steps `i` and `i + 1`.
    pub fn swap(&mut self, i: usize) -> Result<(), Fault>
        ensures { Does (Built (P.Task.pile self.old.pile)) (swap_call (meaning (P.Task.pile self.old.pile)) (held self.old.plan) i) self.old result self.new }
    {
        let (first, second) = self.steps_at(i)?;
        self.replace(i, 2, &[second, first])
    }

    // Puts action `c` in place of steps `i` and `i + 1`, which are its parts.
    pub fn fold(&mut self, i: usize, c: u16) -> Result<(), Fault>
        ensures does { Does (Built (P.Task.pile self.old.pile)) (fold_call (meaning (P.Task.pile self.old.pile)) (held self.old.plan) i c) self.old result self.new }
        ensures form { Built (P.Task.pile self.old.pile) → TopMacro (P.Task.pile self.old.pile) (held self.old.plan) (λ _. c) → OnlyForm result }
    {
        let parts = self.steps_at(i)?;
        if c >= self.pile.actions() {
            return Err(Fault::at_place(Refusal::UnknownAction, i));
        }
        if self.pile.parts(c) != Some(parts) {
            return Err(Fault::at_place(Refusal::NotTheParts, i));
        }
        self.replace(i, 2, &[c])
    }

    // Puts the two parts in place of step `i`.
    pub fn unfold(&mut self, i: usize) -> Result<(), Fault>
        ensures does { Does (Built (P.Task.pile self.old.pile)) (unfold_call (meaning (P.Task.pile self.old.pile)) (held self.old.plan) i) self.old result self.new }
        ensures form { Built (P.Task.pile self.old.pile) → TopMacro (P.Task.pile self.old.pile) (held self.old.plan) (λ plan. action_at plan i) → OnlyForm result }
    {
        let a = self.step_at(i)?;
        let Some((first, second)) = self.pile.parts(a) else {
            return Err(Fault::at_place(Refusal::NotTheParts, i));
        };
        self.replace(i, 1, &[first, second])
    }
}
