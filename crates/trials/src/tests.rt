// Each test goes through a table: a row that fails ends it, and is named by the message.
mod amounts;
mod bench;
mod full;
mod plans;
mod refusals;
mod sets;

use crate::faults::refused;
use atoms::Atoms;
use planning::{Fault, Refusal};
use std::fmt::Display;
use std::process::Abort;

fn set_of(atoms: &[u16]) -> Atoms {
    atoms.iter().fold(Atoms::empty(), |set, p| set.insert(*p))
}

// The set has the atoms of the list, which names none twice, and no others.
fn check_set<D: Display>(rt: &impl Abort, what: &D, set: Atoms, atoms: &[u16]) {
    for p in atoms {
        assert!(rt; set.contains(*p), "{what}: atom {p}");
    }
    assert_eq!(rt; usize::from(set.count()), atoms.len(), "{what}");
}
