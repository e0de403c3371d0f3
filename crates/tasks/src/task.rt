ghost use Rattle.std.specs.Prelude.{◌≡◌};
ghost use Rattle.atoms.specs.Has.{has};
ghost use Rattle.planning.specs.Piles.{Pile, Built, meaning};
ghost use Rattle.tasks.specs.Answers.{Acts, listed};

use crate::action::Action;
use crate::base_steps::BaseSteps;
use atoms::Atoms;

// A task: a bottom, or layers on one. Every answer is read from the one task that the pile means, if the pile is built. A number
// outside the counts is answered by no, nothing, kind 65,535 or height 0.
pub trait Task {
    ghost pile: { Self → Pile };

    // How many atoms there are.
    fn atoms(&self) -> u16
        ensures { Built (pile self.now) → result ≡ (meaning (pile self.now)).atoms };

    // How many actions there are.
    fn actions(&self) -> u16
        ensures { Built (pile self.now) → result ≡ (meaning (pile self.now)).actions };

    fn initial(&self) -> Atoms
        ensures { Built (pile self.now) → has result ≡ (meaning (pile self.now)).initial };

    fn goal(&self) -> Atoms
        ensures { Built (pile self.now) → has result ≡ (meaning (pile self.now)).goal };

    // An action's sets and kind, all at once: a layer makes each of them from several of those below.
    fn action(&self, a: u16) -> Action
        ensures { Built (pile self.now) → Acts (meaning (pile self.now)) a result };

    fn needs(&self, a: u16) -> Atoms
        ensures { Built (pile self.now) → has result ≡ (meaning (pile self.now)).needs a }
    {
        self.action(a).needs
    }

    fn deletes(&self, a: u16) -> Atoms
        ensures { Built (pile self.now) → has result ≡ (meaning (pile self.now)).deletes a }
    {
        self.action(a).deletes
    }

    fn adds(&self, a: u16) -> Atoms
        ensures { Built (pile self.now) → has result ≡ (meaning (pile self.now)).adds a }
    {
        self.action(a).adds
    }

    fn kind(&self, a: u16) -> u16
        ensures { Built (pile self.now) → result ≡ (meaning (pile self.now)).kind a }
    {
        self.action(a).kind
    }

    // The bottom's actions that an action is made of.
    fn base_steps(&self, a: u16) -> BaseSteps
        ensures { Built (pile self.now) → listed result ≡ (meaning (pile self.now)).base_steps a };

    // The two actions that an action joins.
    fn parts(&self, a: u16) -> Option<(u16, u16)>
        ensures { Built (pile self.now) → result ≡ (meaning (pile self.now)).parts a };

    fn height(&self) -> u8
        ensures { Built (pile self.now) → result ≡ (meaning (pile self.now)).height };

    // The height at which an atom first appeared.
    fn first_height(&self, p: u16) -> u8
        ensures { Built (pile self.now) → result ≡ (meaning (pile self.now)).first_height p };
}

// A task of a type whose values all have a built pile: what is said of a task with a built pile holds of it without a condition.
pub trait BuiltTask: Task {
    ghost built: { (s : Self) → Built (Self.pile s) };
}
