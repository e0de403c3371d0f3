use super::*;
use tariffs::bank::quote_cents;
use tariffs::clinic::quote_visits;
use tariffs::{Amount, Cents, Visits};

// Joined amounts wrap around, and what was joined can be taken back.
#[test]
fn cents_wrap_around(rt: HostRuntime) {
    let rows: [(u64, u64, u64); 5] = [
        (0, 0, 0),
        (2900, 250, 3150),
        (u64::MAX, 1, 0),
        (u64::MAX, u64::MAX, u64::MAX - 1),
        (1, u64::MAX, 0),
    ];
    for (x, y, both) in rows {
        let joined = Cents::new(x).join(Cents::new(y));
        assert_eq!(rt; joined.value(), both, "{x} and {y}");
        assert_eq!(rt;
            joined.take_back(Cents::new(y)).value(),
            x,
            "{both} less {y}"
        );
    }
    assert_eq!(rt; Cents::nought().value(), 0);
}

#[test]
fn visits_wrap_around(rt: HostRuntime) {
    let rows: [(u32, u32, u32); 4] = [
        (0, 0, 0),
        (30, 12, 42),
        (u32::MAX, 1, 0),
        (u32::MAX, u32::MAX, u32::MAX - 1),
    ];
    for (x, y, both) in rows {
        let joined = Visits::new(x, 7).join(Visits::new(y, 5));
        assert_eq!(rt; joined.minutes(), both, "{x} and {y} minutes");
        assert_eq!(rt; joined.visits(), 12, "visits beside them");
        let back = joined.take_back(Visits::new(y, 5));
        assert_eq!(rt; back.minutes(), x, "{both} less {y}");
        assert_eq!(rt; back.visits(), 7, "visits less theirs");
    }
}

// The bench's cents; an action beyond a row is charged nought in it.
#[test]
fn quotes(rt: HostRuntime) {
    let cents: [u32; 6] = [500, 900, 1200, 300, 250, 0];
    let rows: [(&[u16], u64); 6] = [
        (&[], 0),
        (&[0, 1, 2, 3], 2900),
        (&[0, 4, 1, 2, 3], 3150),
        (&[5], 0),
        (&[6], 0),
        (&[65535, 3], 300),
    ];
    for (steps, sum) in rows {
        assert_eq!(rt; quote_cents(&cents, steps).value(), sum, "steps {steps:?}");
    }
    let minutes: [u16; 3] = [10, 20, 65535];
    let visits: [u16; 2] = [1, 2];
    let steps: [u16; 4] = [0, 1, 2, 3];
    let sum = quote_visits(&minutes, &visits, &steps);
    assert_eq!(rt; sum.minutes(), 65565, "minutes");
    assert_eq!(rt; sum.visits(), 3, "visits");
}

// 2,048 steps of the greatest amounts reach no modulus.
#[test]
fn longest_quote(rt: HostRuntime) {
    let steps = [0u16; 2048];
    assert_eq!(rt; quote_cents(&[u32::MAX], &steps).value(), 8796093020160);
    let sum = quote_visits(&[u16::MAX], &[u16::MAX], &steps);
    assert_eq!(rt; sum.minutes(), 134215680);
    assert_eq!(rt; sum.visits(), 134215680);
}
