// A bottom of any number of actions and a pile of any height, for trials, and tests in tables over layers and piles.
#![tactic(auto)]

pub mod tall;
#[cfg(test)]
mod tests;
pub mod wide;

pub use wide::Wide;
