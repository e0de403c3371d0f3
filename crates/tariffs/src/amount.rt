ghost use Rattle.std.specs.Prelude.{◌≡◌};
ghost use Rattle.planning.specs.Amounts.{Amounts};

// What is charged: amounts join, and what was joined can be taken back. `amounts` has the laws with their proofs.
pub trait Amount {
    ghost amounts: { Amounts Self };

    fn nought() -> Self
        ensures { result ≡ amounts.nought };

    fn join(self, other: Self) -> Self
        ensures { result ≡ amounts.join self other };

    fn take_back(self, other: Self) -> Self
        ensures { result ≡ amounts.back self other };
}
