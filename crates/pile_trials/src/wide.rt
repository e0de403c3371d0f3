ghost use Rattle.std.specs.Prelude.{◌≡◌, ◌≤◌, min};
ghost use Rattle.planning.specs.Piles.{bare};
ghost use Rattle.planning.specs.Verdicts.{judged};
ghost use Rattle.pile_trials.specs.Wide.{wide};
ghost use Rattle.pile_trials.specs.Grounded.{wide_bottom};

use atoms::Atoms;
use planning::Fault;
use tasks::task::{BuiltTask, Task};
use tasks::{Action, BaseSteps, judge};

const MOST_ACTIONS: u16 = 288;

const ATOMS: u16 = 2;

// A task of two atoms and up to 288 actions: atom 0 is there at first, and the goal is atom 1. Each action needs atom 0, adds both
// and is of a kind of its own.
#[derive(Clone, Copy)]
pub struct Wide {
    actions: u16,
    ghost few: { actions ≤ 288 },
}

impl Wide {
    // What is past the limit is cut to it.
    pub fn new(actions: u16) -> Wide
        ensures { result.actions ≡ min actions 288 }
    {
        Wide {
            actions: actions.min(MOST_ACTIONS),
        }
    }

    // What `judge` promises of this task: a task that is there, so that the promise is not empty.
    pub fn judge(self, plan: &[u16]) -> Result<(), Fault>
        ensures { result ≡ judged (wide self.actions) plan.now }
    {
        judge(&self, plan)
    }
}

impl Task for Wide {
    ghost pile = { λ s. bare (wide s.actions) };

    fn atoms(&self) -> u16 {
        ATOMS
    }

    fn actions(&self) -> u16 {
        self.actions
    }

    fn initial(&self) -> Atoms {
        Atoms::empty().insert(0)
    }

    fn goal(&self) -> Atoms {
        Atoms::empty().insert(1)
    }

    fn action(&self, a: u16) -> Action {
        if a >= self.actions {
            return Action::unknown();
        }
        let held = Atoms::empty().insert(0);
        Action {
            needs: held,
            deletes: Atoms::empty(),
            adds: held.insert(1),
            kind: a,
        }
    }

    fn base_steps(&self, a: u16) -> BaseSteps {
        BaseSteps::alone(a, self.actions)
    }

    // This and the two below as of any bottom: a trait of bottoms, with a struct that makes a task of one, would ask the five questions
    // above once more to save these three answers.
    fn parts(&self, a: u16) -> Option<(u16, u16)> {
        None
    }

    fn height(&self) -> u8 {
        0
    }

    fn first_height(&self, p: u16) -> u8 {
        0
    }
}

impl BuiltTask for Wide {
    ghost built = { λ s. wide_bottom s.actions s.few };
}
