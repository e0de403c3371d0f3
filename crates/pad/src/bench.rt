ghost use Rattle.std.specs.Prelude.{◌≡◌};
ghost use Rattle.atoms.specs.Has.{has, only_atom};
ghost use Rattle.planning.specs.Sets.{◌∪◌};
ghost use Rattle.planning.specs.Piles.{bare};
ghost use Rattle.planning.specs.Verdicts.{judged};
ghost use Rattle.pad.specs.Bench.{bench, bench_row, action_name, atom_name};
ghost use Rattle.pad.specs.Grounded.{bench_bottom};

use atoms::Atoms;
use planning::Fault;
use tasks::task::{BuiltTask, Task};
use tasks::{Action, BaseSteps, judge};

pub const ATOMS: u16 = 5;

pub const ACTIONS: u16 = 6;

#[derive(Clone, Copy)]
pub struct Bench;

fn one(p: u16) -> Atoms
    ensures { has result ≡ only_atom p }
{
    Atoms::empty().insert(p)
}

fn two(p: u16, q: u16) -> Atoms
    ensures { has result ≡ only_atom p ∪ only_atom q }
{
    one(p).insert(q)
}

// What action `a` needs, deletes and adds, for each of the six.
fn sets(a: u16) -> (Atoms, Atoms, Atoms)
    ensures { (has result.0 ≡ (bench_row a).needs) × (has result.1 ≡ (bench_row a).deletes) × (has result.2 ≡ (bench_row a).adds) }
{
    let none = Atoms::empty();
    match a {
        0 => (none, none, one(0)),
        1 => (one(0), none, one(1)),
        2 => (one(0), none, one(2)),
        3 => (two(1, 2), one(0), one(3)),
        4 => (one(0), two(1, 2), one(0)),
        5 => (two(2, 3), none, one(4)),
        _ => (none, none, none),
    }
}

impl Task for Bench {
    ghost pile = { λ _. bare bench };

    fn atoms(&self) -> u16 {
        ATOMS
    }

    fn actions(&self) -> u16 {
        ACTIONS
    }

    fn initial(&self) -> Atoms {
        Atoms::empty()
    }

    fn goal(&self) -> Atoms {
        one(3)
    }

    fn action(&self, a: u16) -> Action {
        if a >= ACTIONS {
            return Action::unknown();
        }
        let (needs, deletes, adds) = sets(a);
        Action {
            needs,
            deletes,
            adds,
            kind: a,
        }
    }

    fn base_steps(&self, a: u16) -> BaseSteps {
        BaseSteps::alone(a, ACTIONS)
    }

    // This and the two below as of any bottom: a trait of bottoms, with a struct that makes a task of one, would ask the five questions
    // above once more to save these three answers.
    fn parts(&self, a: u16) -> Option<(u16, u16)> {
        None
    }

    fn height(&self) -> u8 {
        0
    }

    fn first_height(&self, p: u16) -> u8 {
        self.height()
    }
}

impl BuiltTask for Bench {
    ghost built = { λ _. bench_bottom };
}

impl Bench {
    // What `judge` promises of the bench: a task that is there, so that the promise is not empty.
    pub fn judge(self, plan: &[u16]) -> Result<(), Fault>
        ensures { result ≡ judged bench plan.now }
    {
        judge(&self, plan)
    }

    pub fn action_name(a: u16) -> &'static str
        ensures { result.now ≡ action_name a }
    {
        match a {
            0 => "power-on",
            1 => "load-keys",
            2 => "align",
            3 => "seal",
            4 => "reset",
            5 => "inspect",
            _ => "unknown",
        }
    }

    pub fn atom_name(p: u16) -> &'static str
        ensures { result.now ≡ atom_name p }
    {
        match p {
            0 => "on",
            1 => "keyed",
            2 => "aligned",
            3 => "sealed",
            4 => "seen",
            _ => "unknown",
        }
    }
}
