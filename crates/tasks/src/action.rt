ghost use Rattle.std.specs.Prelude.{◌≡◌, ℕ, ◌<◌, Decides};
ghost use Rattle.atoms.specs.Has.{has};
ghost use Rattle.planning.specs.Sets.{none, ◌∪◌, ◌∖◌};
ghost use Rattle.planning.specs.Tasks.{Task, Lawful, Applicable};
ghost use Rattle.tasks.specs.Answers.{Acts};

use atoms::Atoms;

// The kind that no action has. What is answered about an unknown action is no `Option`: a number outside the counts is answered by
// nothing and by this kind, and the kinds of actions are any other numbers.
pub const NO_KIND: u16 = 65535;

// What one action is, but for its base steps and parts.
#[derive(Clone, Copy, Default)]
pub struct Action {
    pub needs: Atoms,
    pub deletes: Atoms,
    pub adds: Atoms,
    pub kind: u16,
}

impl Action {
    // The answer for a number that is no action's.
    pub fn unknown() -> Action
        ensures needs { has result.needs ≡ none }
        ensures deletes { has result.deletes ≡ none }
        ensures adds { has result.adds ≡ none }
        ensures kind { result.kind ≡ 65535 }
    {
        Action {
            needs: Atoms::empty(),
            deletes: Atoms::empty(),
            adds: Atoms::empty(),
            kind: NO_KIND,
        }
    }

    // Whether it is an action at all.
    pub fn is_known(self) -> bool
        ensures { (t : Task) (a : ℕ) → Lawful t → Acts t a self → Decides result (a < t.actions) }
    {
        self.kind != NO_KIND
    }

    // Whether it is known, and applicable in a state.
    pub fn is_applicable(self, state: Atoms) -> bool
        ensures { (t : Task) (a : ℕ) → Lawful t → Acts t a self → Decides result ((a < t.actions) × Applicable t a (has state)) }
    {
        self.is_known() && self.needs.is_subset(state)
    }

    // The state after this action.
    pub fn after(self, state: Atoms) -> Atoms
        ensures { has result ≡ (has state ∖ has self.deletes) ∪ has self.adds }
    {
        state.minus(self.deletes).union(self.adds)
    }
}
