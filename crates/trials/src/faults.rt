ghost use Rattle.std.specs.Prelude.{◌≡◌, Err};

use planning::{Fault, Refusal};

// What a call answers that is refused with this fault: for the tables of tests.
pub fn refused<T>(
    refusal: Refusal,
    place: usize,
    atom: u16,
    missing: u16,
    layer: u8,
) -> Result<T, Fault>
    ensures { result ≡ Err (record { refusal = refusal; place = place; atom = atom; missing = missing; layer = layer }) }
{
    Err(Fault {
        refusal,
        place,
        atom,
        missing,
        layer,
    })
}
