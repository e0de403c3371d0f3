// Tasks behind one interface, and the judge of plans.
#![tactic(auto)]

pub mod action;
pub mod base_steps;
pub mod regression;
pub mod task;
pub mod verdict;

pub use action::Action;
pub use base_steps::BaseSteps;
pub use planning::{Fault, Refusal};
pub use regression::wants;
pub use verdict::{judge, step};
