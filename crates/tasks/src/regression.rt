ghost use Rattle.std.specs.Prelude.{ℕ, ◌↔◌, MatchOption};
ghost use Rattle.atoms.specs.Has.{has};
ghost use Rattle.planning.specs.Sets.{AtomSet, ◌⊆◌};
ghost use Rattle.planning.specs.Tasks.{Task as Meaning, Lawful, Reaches};
ghost use Rattle.planning.specs.Piles.{Built, meaning};
ghost use Rattle.tasks.specs.Answers.{Acts};
ghost use Rattle.tasks.specs.Regressed.{WantedBefore, Wanted};

use crate::action::Action;
use crate::task::Task;
use atoms::Atoms;

impl Action {
    // What is wanted before this action, where `want` is wanted after it; nothing where it is unknown or spoils it.
    pub fn wanted_before(self, want: Atoms) -> Option<Atoms>
        ensures { (t : Meaning) (a : ℕ) → Lawful t → Acts t a self → WantedBefore t a (has want) result }
    {
        if self.is_known() && want.intersection(self.deletes).is_subset(self.adds) {
            Some(self.needs.union(want.minus(self.adds)))
        } else {
            None
        }
    }
}

// What a state has to contain for the plan to reach the goal from it; none where no state does.
pub fn wants<P: Task>(task: &P, plan: &[u16]) -> Option<Atoms>
    ensures exact { Built (P.pile task.now) → Wanted (meaning (P.pile task.now)) plan.now result }
    ensures regression { Built (P.pile task.now) → (s : AtomSet) → Reaches (meaning (P.pile task.now)) s plan.now ↔ MatchOption result ⊥ (λ w. has w ⊆ s) }
    ensures monotone { (s s' : AtomSet) → s ⊆ s' → Reaches (meaning (P.pile task.now)) s plan.now → Reaches (meaning (P.pile task.now)) s' plan.now }
{
    let mut want = task.goal();
    for a in plan.iter().rev() {
        want = task.action(*a).wanted_before(want)?;
    }
    Some(want)
}
