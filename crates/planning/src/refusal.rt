ghost use Rattle.std.specs.Prelude.{◌≡◌};
ghost use Rattle.planning.specs.Faults.{number};

// Why a call is refused. docs/REFUSALS.md says who causes each, and which fields of a fault it fills.
#[derive(Clone, Copy, PartialEq, Eq, Debug)]
pub enum Refusal {
    BadLength = 1,
    BadSize = 2,
    SpareBit = 3,
    BadKindOrName = 4,
    NameTaken = 5,
    MalformedLine = 6,
    UnknownName = 7,
    TooManySteps = 8,
    UnknownAction = 9,
    NotApplicable = 10,
    GoalNotMet = 11,
    BadAtom = 12,
    TableFull = 13,
    NotJoinable = 14,
    OverLimit = 15,
    NoPlan = 16,
    NoStep = 17,
    NotTheParts = 18,
    BufferTooShort = 19,
}

impl Refusal {
    pub fn number(self) -> u8
        ensures { result ≡ number self }
    {
        // a discriminant is shown to fit; `try_from` would add a case that never comes
        self as u8
    }
}
