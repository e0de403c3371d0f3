use super::*;
use crate::Wide;
use pad::Bench;
use std::process::Abort;

// A layer over `n` actions with `len` rows, all the same.
fn repeating(rt: &impl Abort, n: u16, len: u16) -> MacroLayer<Wide> {
    let mut layer = MacroLayer::new(Wide::new(n));
    for k in 0..len {
        assert_eq!(rt; layer.add(join(0, 0, k)), Ok(()), "row {k}");
    }
    layer
}

// Over `n` actions and behind `len` rows, one more: what it gets, and how many actions there are then.
fn check_next(
    rt: &impl Abort,
    n: u16,
    len: u16,
    (a, b, kind): (u16, u16, u16),
    want: Result<(), Fault>,
    actions: u16,
) {
    let mut layer = repeating(rt, n, len);
    assert_eq!(rt;
        layer.add(join(a, b, kind)),
        want,
        "{n} actions, {len} rows, then {a}, {b}"
    );
    assert_eq!(rt;
        layer.actions(),
        actions,
        "{n} actions, {len} rows, then {a}, {b}"
    );
}

#[test]
fn limits(rt: HostRuntime) {
    let (full, over) = (
        row_refused(Refusal::TableFull),
        row_refused(Refusal::OverLimit),
    );
    let rows = [
        (2, 15, (1, 0, 9), Ok(()), 18),
        (2, 16, (1, 0, 9), full, 18),
        (271, 15, (270, 0, 0), Ok(()), 287),
        (271, 16, (270, 0, 0), full, 287),
        (272, 15, (0, 271, 0), Ok(()), 288),
        (272, 16, (0, 271, 0), full, 288),
        (273, 14, (0, 272, 0), Ok(()), 288),
        (273, 15, (0, 272, 0), over, 288),
        (287, 0, (286, 286, 0), Ok(()), 288),
        (287, 1, (286, 286, 0), over, 288),
        (288, 0, (287, 287, 0), over, 288),
    ];
    for (n, len, row, want, actions) in rows {
        check_next(&rt, n, len, row, want, actions);
    }
}

#[test]
fn unknown_actions_and_kinds(rt: HostRuntime) {
    let first = refused(Refusal::UnknownAction, 1, 0, 0, 0);
    let second = refused(Refusal::UnknownAction, 2, 0, 0, 0);
    let kind = row_refused(Refusal::BadKindOrName);
    let rows = [
        (0, 0, (0, 0, 0), first, 0),
        (3, 0, (2, 2, 0), Ok(()), 4),
        (3, 0, (3, 0, 0), first, 3),
        (3, 0, (65535, 0, 0), first, 3),
        (3, 0, (3, 3, 0), first, 3),
        (3, 0, (0, 3, 0), second, 3),
        (3, 0, (0, 65535, 0), second, 3),
        (3, 1, (3, 0, 0), first, 4),
        (3, 1, (0, 3, 0), second, 4),
        (3, 0, (0, 0, 65534), Ok(()), 4),
        (3, 0, (0, 0, 65535), kind, 3),
        (3, 0, (3, 0, 65535), first, 3),
        (3, 0, (0, 3, 65535), second, 3),
        (3, 16, (3, 0, 0), first, 19),
        (3, 16, (0, 3, 65535), second, 19),
        (3, 16, (0, 0, 65535), kind, 19),
        (272, 16, (272, 272, 65535), first, 288),
        (288, 0, (288, 0, 0), first, 288),
        (288, 0, (0, 288, 0), second, 288),
        (288, 0, (0, 0, 65535), kind, 288),
    ];
    for (n, len, row, want, actions) in rows {
        check_next(&rt, n, len, row, want, actions);
    }
}

// The atom in the way of joining two actions of the bench.
fn clash_atom(pair: (u16, u16)) -> Option<u16> {
    match pair {
        (3, 1) | (3, 2) | (3, 4) => Some(0),
        (4, 3) => Some(1),
        (4, 5) => Some(2),
        _ => None,
    }
}

// All pairs of actions of the bench.
#[test]
fn pairs(rt: HostRuntime) {
    for a in 0..6 {
        for b in 0..6 {
            let want = match clash_atom((a, b)) {
                Some(atom) => refused(Refusal::NotJoinable, 0, atom, 0, 0),
                None => Ok(()),
            };
            let mut layer = MacroLayer::new(Bench);
            assert_eq!(rt; layer.add(join(a, b, 6)), want, "{a}, {b}");
            let actions = if want.is_ok() { 7 } else { 6 };
            assert_eq!(rt; layer.actions(), actions, "actions with {a}, {b}");
        }
    }
}
