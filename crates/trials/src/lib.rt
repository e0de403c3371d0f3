// A bottom of any size, for trials, and tests in tables over the sets, the tasks and the verdicts.
#![tactic(auto)]

pub mod faults;
pub mod full;
#[cfg(test)]
mod tests;

pub use full::Full;
