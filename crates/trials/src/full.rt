ghost use Rattle.std.specs.Prelude.{◌≡◌, ◌≤◌, min};
ghost use Rattle.atoms.specs.Has.{has};
ghost use Rattle.planning.specs.Piles.{bare};
ghost use Rattle.planning.specs.Verdicts.{judged};
ghost use Rattle.trials.specs.Full.{below, full};
ghost use Rattle.trials.specs.Grounded.{full_bottom};

use atoms::Atoms;
use planning::Fault;
use tasks::task::{BuiltTask, Task};
use tasks::{Action, BaseSteps, judge};

const MOST_ATOMS: u16 = 320;

const ACTIONS: u16 = 2;

const LAST_KIND: u16 = 65534;

// A task of up to 320 atoms, none of them there at first and all of them its goal. Action 0 adds them all; action 1 needs and
// deletes them all.
#[derive(Clone, Copy)]
pub struct Full {
    atoms: u16,
    // of both actions
    kind: u16,
    ghost few: { atoms ≤ 320 },
    ghost known: { kind ≤ 65534 },
}

// The atoms below `n`. A loop and no `fold`, since the clause is its invariant.
pub fn first(n: u16) -> Atoms
    ensures { n ≤ 320 → has result ≡ below n }
{
    let mut set = Atoms::empty();
    for i in 0..n {
        set = set.insert(i);
    }
    set
}

impl Full {
    // What is past a limit is cut to it.
    pub fn new(atoms: u16, kind: u16) -> Full
        ensures atoms { result.atoms ≡ min atoms 320 }
        ensures kind { result.kind ≡ min kind 65534 }
    {
        Full {
            atoms: atoms.min(MOST_ATOMS),
            kind: kind.min(LAST_KIND),
        }
    }

    // What `judge` promises of this task: a task that is there, so that the promise is not empty.
    pub fn judge(self, plan: &[u16]) -> Result<(), Fault>
        ensures { result ≡ judged (full self.atoms self.kind) plan.now }
    {
        judge(&self, plan)
    }
}

impl Task for Full {
    ghost pile = { λ s. bare (full s.atoms s.kind) };

    fn atoms(&self) -> u16 {
        self.atoms
    }

    fn actions(&self) -> u16 {
        ACTIONS
    }

    fn initial(&self) -> Atoms {
        Atoms::empty()
    }

    fn goal(&self) -> Atoms {
        first(self.atoms)
    }

    fn action(&self, a: u16) -> Action {
        let (none, all) = (Atoms::empty(), first(self.atoms));
        match a {
            0 => Action {
                needs: none,
                deletes: none,
                adds: all,
                kind: self.kind,
            },
            1 => Action {
                needs: all,
                deletes: all,
                adds: none,
                kind: self.kind,
            },
            _ => Action::unknown(),
        }
    }

    fn base_steps(&self, a: u16) -> BaseSteps {
        BaseSteps::alone(a, ACTIONS)
    }

    // This and the two below as of any bottom: a trait of bottoms, with a struct that makes a task of one, would ask the five questions
    // above once more to save these three answers.
    fn parts(&self, a: u16) -> Option<(u16, u16)> {
        None
    }

    fn height(&self) -> u8 {
        0
    }

    fn first_height(&self, p: u16) -> u8 {
        0
    }
}

impl BuiltTask for Full {
    ghost built = { λ s. full_bottom s.atoms s.kind s.few s.known };
}
