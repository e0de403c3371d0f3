ghost use Rattle.std.specs.Prelude.{◌≡◌, ◌<◌, ◌≤◌, length, drop, Err, MatchResult};
ghost use Rattle.planning.specs.Faults.{at_place};
ghost use Rattle.planning.specs.Piles.{Built, meaning};
ghost use Rattle.planning.specs.Runs.{performed};
ghost use Rattle.planning.specs.declared.refusal.Refusal.TheVariants.{BufferTooShort};
ghost use Rattle.service.specs.Calls.{held, call_of, answer_of, CarriedOut};

use super::Order;
use crate::call::Call;
use planning::{Fault, Refusal};
use tariffs::Tariff;
use tasks::task::Task;

impl<P: Task, F: Tariff> Order<P, F> {
    // Carries one call out: drop and trim alone answer a credit. A call is data, which a list holds and the definitions speak of, so this
    // is a `match` and no table of closures.
    pub fn perform(&mut self, call: Call<'_>) -> Result<Option<F::Amount>, Fault>
        ensures pile { self.new.pile ≡ self.old.pile }
        ensures tariff { self.new.tariff ≡ self.old.tariff }
        ensures exact { Built (P.Task.pile self.old.pile) → performed F.Amount.Amount.amounts (F.Tariff.price self.old.tariff) (meaning (P.Task.pile self.old.pile)) (held self.old.plan) (call_of call.entry) ≡ (answer_of result, held self.new.plan) }
    {
        match call {
            Call::Load(row) => self.load(row).map(|()| None),
            Call::Drop(i) => self.drop(i).map(Some),
            Call::Swap(i) => self.swap(i).map(|()| None),
            Call::Fold(i, c) => self.fold(i, c).map(|()| None),
            Call::Unfold(i) => self.unfold(i).map(|()| None),
            Call::Trim => self.trim().map(Some),
        }
    }

    // Carries the calls out one after the other, writes their answers, and answers the quote afterwards; refused, and nothing done,
    // where there is no room for all answers.
    pub fn carry_out(
        &mut self,
        calls: &[Call<'_>],
        answers: &mut [Result<Option<F::Amount>, Fault>],
    ) -> Result<F::Amount, Fault>
        ensures pile { self.new.pile ≡ self.old.pile }
        ensures tariff { self.new.tariff ≡ self.old.tariff }
        ensures short { length answers.old < length calls.now → (result ≡ Err (at_place BufferTooShort 0)) × (self.new ≡ self.old) × (answers.new ≡ answers.old) }
        ensures beyond { drop (length calls.now) answers.new ≡ drop (length calls.now) answers.old }
        ensures carried { Built (P.Task.pile self.old.pile) → length calls.now ≤ length answers.old → MatchResult result (CarriedOut F.Amount.Amount.amounts (F.Tariff.price self.old.tariff) (P.Task.pile self.old.pile) (held self.old.plan) calls.now answers.new (held self.new.plan)) (λ _. ⊥) }
    {
        if answers.len() < calls.len() {
            return Err(Fault::at_place(Refusal::BufferTooShort, 0));
        }
        // `enumerate`, and no `zip` with the answers, since the promise speaks of their places
        for (i, call) in calls.iter().enumerate() {
            answers[i] = self.perform(*call);
        }
        Ok(self.quote())
    }
}
