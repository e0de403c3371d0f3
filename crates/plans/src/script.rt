use atoms::Atoms;
use tasks::Action;

pub mod ops;

// A step of a plan: its number, what the task answers about it, and what the rest of the plan behind it wants; none where no state
// serves that rest. A script is a row of these.
#[derive(Clone, Copy, Default)]
pub struct Step {
    number: u16,
    action: Action,
    later: Option<Atoms>,
}
