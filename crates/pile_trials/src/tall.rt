ghost use Rattle.std.specs.Prelude.{◌≡◌, ◌≤◌};
ghost use Rattle.pile_trials.specs.Tall.{stacked};
ghost use Rattle.pile_trials.specs.Stacked.{stacked_built};

use atoms::Atoms;
use tasks::task::{BuiltTask, Task};
use tasks::{Action, BaseSteps};

// A task of one atom and no action, of this height: so many empty layers, without their cost.
#[derive(Clone, Copy)]
pub struct Tall {
    height: u8,
    ghost low: { height ≤ 255 },
}

impl Tall {
    pub fn new(height: u8) -> Tall
        ensures { result.height ≡ height }
    {
        Tall { height }
    }
}

impl Task for Tall {
    ghost pile = { λ s. stacked s.height };

    fn atoms(&self) -> u16 {
        1
    }

    fn actions(&self) -> u16 {
        0
    }

    fn initial(&self) -> Atoms {
        Atoms::empty()
    }

    fn goal(&self) -> Atoms {
        Atoms::empty()
    }

    fn action(&self, a: u16) -> Action {
        Action::unknown()
    }

    fn base_steps(&self, a: u16) -> BaseSteps {
        BaseSteps::none()
    }

    // This and the last one as of any bottom, as `Wide` says.
    fn parts(&self, a: u16) -> Option<(u16, u16)> {
        None
    }

    fn height(&self) -> u8 {
        self.height
    }

    fn first_height(&self, p: u16) -> u8 {
        0
    }
}

impl BuiltTask for Tall {
    ghost built = { λ s. stacked_built s.height };
}
