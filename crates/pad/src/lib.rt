// The service bench of a handwriting pad, as a bottom of its own, and piles on it.
#![tactic(auto)]

pub mod bench;
pub mod piles;

pub use bench::Bench;
pub use piles::{judge_joined, judge_ruled};
