ghost use Rattle.std.specs.Prelude.{◌≡◌};
ghost use Rattle.planning.specs.Marks.{higher};

// One higher, or 255 over 255.
pub fn one_higher(height: u8) -> u8
    ensures { result ≡ higher height }
{
    height.saturating_add(1)
}
