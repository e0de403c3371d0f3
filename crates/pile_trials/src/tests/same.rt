// Two tasks held against each other, answer by answer.
use super::*;
use std::fmt::Display;
use std::process::Abort;
use trials::full::first;

// What is answered about one action, of its sets the atoms of `within`.
fn check_action<X: Task, Y: Task, D: Display>(
    rt: &impl Abort,
    what: &D,
    x: &X,
    y: &Y,
    a: u16,
    within: Atoms,
) {
    assert_eq!(rt;
        y.needs(a).intersection(within),
        x.needs(a).intersection(within),
        "{what}: needs of {a}"
    );
    assert_eq!(rt;
        y.deletes(a).intersection(within),
        x.deletes(a).intersection(within),
        "{what}: deletes of {a}"
    );
    assert_eq!(rt;
        y.adds(a).intersection(within),
        x.adds(a).intersection(within),
        "{what}: adds of {a}"
    );
    assert_eq!(rt; y.kind(a), x.kind(a), "{what}: kind of {a}");
    assert_eq!(rt; y.parts(a), x.parts(a), "{what}: parts of {a}");
    let (base, old) = (y.base_steps(a), x.base_steps(a));
    assert_eq!(rt;
        base.as_slice(),
        old.as_slice(),
        "{what}: base steps of {a}"
    );
}

// The actions below `count`.
fn check_actions<X: Task, Y: Task, D: Display>(
    rt: &impl Abort,
    what: &D,
    x: &X,
    y: &Y,
    count: u16,
    within: Atoms,
) {
    for a in 0..count {
        check_action(rt, what, x, y, a, within);
    }
}

// The atoms below `count`.
fn check_atoms<X: Task, Y: Task, D: Display>(rt: &impl Abort, what: &D, x: &X, y: &Y, count: u16) {
    for p in 0..count {
        let got = (y.initial().contains(p), y.goal().contains(p));
        let want = (x.initial().contains(p), x.goal().contains(p));
        assert_eq!(rt; got, want, "{what}: atom {p} at first, in the goal");
        assert_eq!(rt;
            y.first_height(p),
            x.first_height(p),
            "{what}: height of atom {p}"
        );
    }
}

// Every answer but the height, for known numbers and others.
pub fn check_same<X: Task, Y: Task, D: Display>(rt: &impl Abort, what: &D, x: &X, y: &Y) {
    assert_eq!(rt;
        [y.atoms(), y.actions()],
        [x.atoms(), x.actions()],
        "{what}: counts"
    );
    check_atoms(rt, what, x, y, 330);
    check_actions(rt, what, x, y, 300, Atoms::all());
    check_action(rt, what, x, y, 65535, Atoms::all());
    assert_eq!(rt;
        y.first_height(65535),
        x.first_height(65535),
        "{what}: height of atom 65535"
    );
}

// Every answer about the actions of `x`, as far as its atoms go, and about these.
pub fn check_kept<X: Task, Y: Task, D: Display>(rt: &impl Abort, what: &D, x: &X, y: &Y) {
    assert_eq!(rt; y.height(), x.height(), "{what}: height");
    check_atoms(rt, what, x, y, x.atoms());
    check_actions(rt, what, x, y, x.actions(), first(x.atoms()));
}
