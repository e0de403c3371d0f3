ghost use Rattle.std.specs.Prelude.{◌^◌, ◌<◌};

pub mod ops;

// Minutes, and visits beside them, each joined modulo 2^32. A type of its own beside `Cents`: the two widths wrap by methods of two
// types, and what both are is the trait `Amount`.
#[derive(Clone, Copy, PartialEq, Eq, Debug)]
pub struct Visits {
    minutes: u32,
    visits: u32,
    ghost fits: { minutes < 2 ^ 32 },
    ghost also: { visits < 2 ^ 32 },
}
