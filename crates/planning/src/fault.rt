ghost use Rattle.std.specs.Prelude.{◌≡◌};
ghost use Rattle.planning.specs.Faults.{at_place};

use crate::refusal::Refusal;
use std::fmt;

// A refusal with what it says of the file, text, plan, row or call that caused it: fields that it does not fill are 0.
#[derive(Clone, Copy, PartialEq, Eq, Debug)]
pub struct Fault {
    pub refusal: Refusal,
    pub place: usize,
    pub atom: u16,
    // how many atoms are missing
    pub missing: u16,
    pub layer: u8,
}

impl Fault {
    // A fault that fills its place alone.
    pub fn at_place(refusal: Refusal, place: usize) -> Fault
        ensures { result ≡ at_place refusal place }
    {
        Fault {
            refusal,
            place,
            atom: 0,
            missing: 0,
            layer: 0,
        }
    }
}

impl fmt::Display for Fault {
    fn fmt<W: fmt::Write>(&self, f: &mut fmt::Formatter<W>) -> fmt::Result {
        write!(
            f,
            "refused {} place {} atom {} missing {} layer {}",
            self.refusal.number(),
            self.place,
            self.atom,
            self.missing,
            self.layer
        )
    }
}
