// Plans of up to 256 steps, and plans trimmed.
#![tactic(auto)]

pub mod plan;
mod script;
pub mod trimming;

pub use plan::Plan;
pub use trimming::{Trimmed, trim};
