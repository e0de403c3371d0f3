// Planning tasks and piles of layers: the definitions stand in specs/, the theorems in proofs/. The only code is the refusals and
// the rows of layers that the definitions speak of.
#![tactic(auto)]

pub mod fault;
pub mod join;
pub mod refusal;
pub mod rule;

pub use fault::Fault;
pub use join::Join;
pub use refusal::Refusal;
pub use rule::{Rule, RuleSort};
