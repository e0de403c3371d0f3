// Sets of atoms 0 to 319, in five words.
#![tactic(auto)]

mod set;

pub use set::Atoms;
