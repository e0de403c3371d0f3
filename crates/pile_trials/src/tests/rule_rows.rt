use super::*;
use std::process::Abort;
use trials::Full;

// A layer over `n` atoms that lists the first `len` of them.
fn listing(rt: &impl Abort, n: u16, len: u16) -> RuleLayer<Full> {
    let mut layer = RuleLayer::new(Full::new(n, 0), rule(Successor, 0, 1, false));
    for p in 0..len {
        assert_eq!(rt; layer.add(p), Ok(()), "listing {p}");
    }
    layer
}

// Over `n` atoms, the first `len` of them listed, one more: what it gets, and how many atoms there are then.
fn check_next(rt: &impl Abort, n: u16, len: u16, p: u16, want: Result<(), Fault>, atoms: u16) {
    let mut layer = listing(rt, n, len);
    assert_eq!(rt; layer.add(p), want, "{n} atoms, {len} listed, then {p}");
    assert_eq!(rt; layer.atoms(), atoms, "{n} atoms, {len} listed, then {p}");
}

#[test]
fn limits(rt: HostRuntime) {
    let (full, over) = (
        row_refused(Refusal::TableFull),
        row_refused(Refusal::OverLimit),
    );
    let rows = [
        (40, 31, 31, Ok(()), 72),
        (40, 31, 39, Ok(()), 72),
        (40, 32, 32, full, 72),
        (40, 32, 39, full, 72),
        (288, 31, 31, Ok(()), 320),
        (288, 32, 32, full, 320),
        (289, 30, 30, Ok(()), 320),
        (289, 31, 31, over, 320),
        (300, 19, 19, Ok(()), 320),
        (300, 20, 20, over, 320),
        (319, 0, 318, Ok(()), 320),
        (319, 1, 1, over, 320),
        (320, 0, 0, over, 320),
        (320, 0, 319, over, 320),
    ];
    for (n, len, p, want, atoms) in rows {
        check_next(&rt, n, len, p, want, atoms);
    }
}

#[test]
fn bad_atoms(rt: HostRuntime) {
    let bad = row_refused(Refusal::BadAtom);
    let rows = [
        (0, 0, 0, bad, 0),
        (1, 0, 0, Ok(()), 2),
        (5, 0, 4, Ok(()), 6),
        (5, 0, 5, bad, 5),
        (5, 0, 65535, bad, 5),
        (5, 1, 0, bad, 6),
        (5, 3, 0, bad, 8),
        (5, 3, 1, bad, 8),
        (5, 3, 2, bad, 8),
        (5, 3, 3, Ok(()), 9),
        (5, 3, 4, Ok(()), 9),
        (5, 5, 5, bad, 10),
        (40, 32, 31, bad, 72),
        (40, 32, 40, bad, 72),
        (288, 32, 0, bad, 320),
        (288, 32, 288, bad, 320),
        (300, 20, 19, bad, 320),
        (320, 0, 320, bad, 320),
    ];
    for (n, len, p, want, atoms) in rows {
        check_next(&rt, n, len, p, want, atoms);
    }
}

// Lists with gaps over 40 atoms, and one more atom.
#[test]
fn gaps(rt: HostRuntime) {
    let bad = row_refused(Refusal::BadAtom);
    let rows: [(&[u16], u16, Result<(), Fault>); 9] = [
        (&[39], 39, bad),
        (&[39], 38, bad),
        (&[5, 9], 4, bad),
        (&[5, 9], 5, bad),
        (&[5, 9], 7, bad),
        (&[5, 9], 9, bad),
        (&[5, 9], 10, Ok(())),
        (&[5, 9], 39, Ok(())),
        (&[5, 9], 40, bad),
    ];
    for (listed, p, want) in rows {
        let mut layer = ruled(&rt, Full::new(40, 0), rule(Predecessor, 0, 1, true), listed);
        assert_eq!(rt; layer.add(p), want, "{p} after {listed:?}");
    }
}
