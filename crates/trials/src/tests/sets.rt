use super::*;
use std::process::Abort;

fn check_one(rt: &impl Abort, p: u16, there: Option<u16>, beside: &[u16]) {
    let set = Atoms::empty().insert(p);
    assert_eq!(rt; set.contains(p), there.is_some(), "contains {p}");
    assert_eq!(rt; set.is_empty(), there.is_none(), "is_empty with {p}");
    assert_eq!(rt;
        [set.lowest(), set.greatest()],
        [there, there],
        "lowest, greatest of {p}"
    );
    assert_eq!(rt; set.insert(p), set, "{p} twice");
    check_set(rt, &format_args!("{p} beside 100"), set.insert(100), beside);
}

// An atom, what is there once it is put in, and the set that it gives with 100.
#[test]
fn one_atom(rt: HostRuntime) {
    let rows: [(u16, Option<u16>, &[u16]); 6] = [
        (0, Some(0), &[0, 100]),
        (63, Some(63), &[63, 100]),
        (64, Some(64), &[64, 100]),
        (319, Some(319), &[319, 100]),
        (320, None, &[100]),
        (65535, None, &[100]),
    ];
    for (p, there, beside) in rows {
        check_one(&rt, p, there, beside);
    }
}

#[test]
fn ends_and_counts(rt: HostRuntime) {
    let rows: [(&[u16], u16, Option<u16>, Option<u16>); 10] = [
        (&[], 0, None, None),
        (&[63, 0], 2, Some(0), Some(63)),
        (&[63, 64], 2, Some(63), Some(64)),
        (&[64, 319], 2, Some(64), Some(319)),
        (&[319, 0], 2, Some(0), Some(319)),
        (&[0, 63, 64, 319], 4, Some(0), Some(319)),
        (&[64, 64, 64], 1, Some(64), Some(64)),
        (&[319, 320, 65535], 1, Some(319), Some(319)),
        (&[320], 0, None, None),
        (&[65535, 320], 0, None, None),
    ];
    for (atoms, count, low, high) in rows {
        let set = set_of(atoms);
        assert_eq!(rt;
            (set.count(), set.lowest(), set.greatest()),
            (count, low, high),
            "{atoms:?}"
        );
    }
}

fn check_pair(rt: &impl Abort, x: &[u16], y: &[u16], either: &[u16], both: &[u16], less: &[u16]) {
    let (a, b) = (set_of(x), set_of(y));
    check_set(
        rt,
        &format_args!("union of {x:?} and {y:?}"),
        a.union(b),
        either,
    );
    check_set(
        rt,
        &format_args!("intersection of {x:?} and {y:?}"),
        a.intersection(b),
        both,
    );
    check_set(rt, &format_args!("{x:?} minus {y:?}"), a.minus(b), less);
}

// Two sets, then their union, their intersection and the first without the second.
#[test]
fn made_of_two_sets(rt: HostRuntime) {
    let rows: [(&[u16], &[u16], &[u16], &[u16], &[u16]); 10] = [
        (&[], &[], &[], &[], &[]),
        (&[0], &[], &[0], &[], &[0]),
        (&[], &[319], &[319], &[], &[]),
        (&[0, 63], &[63, 64], &[0, 63, 64], &[63], &[0]),
        (&[64], &[63, 64, 319], &[63, 64, 319], &[64], &[]),
        (&[63, 64, 319], &[64], &[63, 64, 319], &[64], &[63, 319]),
        (&[0, 64], &[63, 319], &[0, 63, 64, 319], &[], &[0, 64]),
        (
            &[0, 63, 64, 319],
            &[319, 64, 63, 0],
            &[0, 63, 64, 319],
            &[0, 63, 64, 319],
            &[],
        ),
        (&[319, 320], &[319, 65535], &[319], &[319], &[]),
        (&[320], &[65535], &[], &[], &[]),
    ];
    for (a, b, either, both, less) in rows {
        check_pair(&rt, a, b, either, both, less);
    }
}

// Two sets, whether the first is within the second, and whether they are equal.
#[test]
fn two_sets_compared(rt: HostRuntime) {
    let rows: [(&[u16], &[u16], bool, bool); 10] = [
        (&[], &[], true, true),
        (&[], &[0], true, false),
        (&[0], &[], false, false),
        (&[319], &[63, 319], true, false),
        (&[63, 319], &[319], false, false),
        (&[0, 63], &[63, 64], false, false),
        (&[63], &[64], false, false),
        (&[319, 64, 63, 0], &[0, 63, 64, 319], true, true),
        (&[319, 320], &[65535, 319], true, true),
        (&[320], &[0], true, false),
    ];
    for (a, b, within, equal) in rows {
        let (x, y) = (set_of(a), set_of(b));
        assert_eq!(rt;
            [x.is_subset(y), x == y],
            [within, equal],
            "{a:?} and {b:?}"
        );
    }
}
