ghost use Rattle.std.specs.Prelude.{◌^◌, ◌<◌};

pub mod ops;

// Cents, joined modulo 2^64.
#[derive(Clone, Copy, PartialEq, Eq, Debug)]
pub struct Cents {
    value: u64,
    ghost fits: { value < 2 ^ 64 },
}
