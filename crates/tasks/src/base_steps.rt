ghost use Rattle.std.specs.Prelude.{◌≤◌};

pub mod ops;

// Up to 8 base steps. An array with a length, since an `ArrayVec` is not `Copy`.
#[derive(Clone, Copy)]
pub struct BaseSteps {
    len: usize,
    steps: [u16; 8],
    ghost fits: { len ≤ 8 },
}
