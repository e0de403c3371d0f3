use super::*;
use pad::Bench;
use std::process::Abort;
use tasks::task::Task;

fn check_action(
    rt: &impl Abort,
    a: u16,
    [needs, deletes, adds]: [&[u16]; 3],
    kind: u16,
    base: &[u16],
) {
    let action = Bench.action(a);
    check_set(rt, &format_args!("needs of {a}"), action.needs, needs);
    check_set(rt, &format_args!("deletes of {a}"), action.deletes, deletes);
    check_set(rt, &format_args!("adds of {a}"), action.adds, adds);
    assert_eq!(rt; [action.kind, Bench.kind(a)], [kind, kind], "kind of {a}");
    check_set(
        rt,
        &format_args!("needs of {a} alone"),
        Bench.needs(a),
        needs,
    );
    check_set(
        rt,
        &format_args!("deletes of {a} alone"),
        Bench.deletes(a),
        deletes,
    );
    check_set(rt, &format_args!("adds of {a} alone"), Bench.adds(a), adds);
    assert_eq!(rt; Bench.base_steps(a).as_slice(), base, "base steps of {a}");
    assert_eq!(rt; Bench.parts(a), None, "parts of {a}");
}

// An action: what it needs, deletes and adds, its kind, its base steps.
#[test]
fn actions_known_and_unknown(rt: HostRuntime) {
    let rows: [(u16, &[u16], &[u16], &[u16], u16, &[u16]); 13] = [
        (0, &[], &[], &[0], 0, &[0]),
        (1, &[0], &[], &[1], 1, &[1]),
        (2, &[0], &[], &[2], 2, &[2]),
        (3, &[1, 2], &[0], &[3], 3, &[3]),
        (4, &[0], &[1, 2], &[0], 4, &[4]),
        (5, &[2, 3], &[], &[4], 5, &[5]),
        (6, &[], &[], &[], 65535, &[]),
        (7, &[], &[], &[], 65535, &[]),
        (255, &[], &[], &[], 65535, &[]),
        (256, &[], &[], &[], 65535, &[]),
        (287, &[], &[], &[], 65535, &[]),
        (288, &[], &[], &[], 65535, &[]),
        (65535, &[], &[], &[], 65535, &[]),
    ];
    for (a, needs, deletes, adds, kind, base) in rows {
        check_action(&rt, a, [needs, deletes, adds], kind, base);
    }
}

// Which of some actions need, delete and add an atom.
fn check_atom(rt: &impl Abort, p: u16, doing: [&[u16]; 3]) {
    for a in [0, 1, 2, 3, 4, 5, 6, 7, 255, 256, 287, 288, 65535] {
        let got = [Bench.needs(a), Bench.deletes(a), Bench.adds(a)].map(|set| set.contains(p));
        let want = doing.map(|actions| actions.contains(&a));
        assert_eq!(rt; got, want, "atom {p}, action {a}");
    }
    assert_eq!(rt; Bench.first_height(p), 0, "atom {p}");
    assert!(rt; !Bench.initial().contains(p), "atom {p}");
}

// An atom: whether it is in the goal, and the actions that need, delete and add it.
#[test]
fn atoms_known_and_unknown(rt: HostRuntime) {
    let rows: [(u16, bool, &[u16], &[u16], &[u16]); 10] = [
        (0, false, &[1, 2, 4], &[3], &[0, 4]),
        (1, false, &[3], &[4], &[1]),
        (2, false, &[3, 5], &[4], &[2]),
        (3, true, &[5], &[], &[3]),
        (4, false, &[], &[], &[5]),
        (5, false, &[], &[], &[]),
        (64, false, &[], &[], &[]),
        (319, false, &[], &[], &[]),
        (320, false, &[], &[], &[]),
        (65535, false, &[], &[], &[]),
    ];
    for (p, wanted, needing, deleting, adding) in rows {
        assert_eq!(rt; Bench.goal().contains(p), wanted, "atom {p} of the goal");
        check_atom(&rt, p, [needing, deleting, adding]);
    }
}

#[test]
fn counts(rt: HostRuntime) {
    let rows = [
        ("atoms", Bench.atoms(), 5),
        ("actions", Bench.actions(), 6),
        ("height", u16::from(Bench.height()), 0),
        ("atoms at first", Bench.initial().count(), 0),
        ("atoms of the goal", Bench.goal().count(), 1),
    ];
    for (what, got, want) in rows {
        assert_eq!(rt; got, want, "{}", what);
    }
}
