// Layers over any task: rules over kinds of actions, and macros. Each is again a task.
#![tactic(auto)]

mod height;
pub mod joining;
pub mod macro_layer;
pub mod marks;
pub mod rule_layer;

pub use macro_layer::MacroLayer;
pub use rule_layer::RuleLayer;
