ghost use Rattle.planning.specs.Piles.{bare};
ghost use Rattle.pile_trials.specs.Tall.{tall};

use atoms::Atoms;
use tasks::task::Task;
use tasks::{Action, BaseSteps};

// A task of one atom and no action that says it is of this height, with no layer below: above 0 its pile is not built.
#[derive(Clone, Copy)]
pub struct Claimed(pub u8);

impl Task for Claimed {
    ghost pile = { λ s. bare (tall s.0) };

    fn atoms(&self) -> u16 {
        1
    }

    fn actions(&self) -> u16 {
        0
    }

    fn initial(&self) -> Atoms {
        Atoms::empty()
    }

    fn goal(&self) -> Atoms {
        Atoms::empty()
    }

    fn action(&self, a: u16) -> Action {
        Action::unknown()
    }

    fn base_steps(&self, a: u16) -> BaseSteps {
        BaseSteps::none()
    }

    fn parts(&self, a: u16) -> Option<(u16, u16)> {
        None
    }

    fn height(&self) -> u8 {
        self.0
    }

    fn first_height(&self, p: u16) -> u8 {
        0
    }
}
