// What a row more changes.
use super::*;
use crate::tests::same::{check_kept, check_same};
use pad::Bench;
use std::process::Abort;

// A row more changes none of the earlier answers, and none at all if it is refused.
fn check_answers<T: Task, D: Display>(
    rt: &impl Abort,
    what: &D,
    before: &T,
    after: &T,
    want: Result<(), Fault>,
) {
    check_kept(rt, &format_args!("{what}, earlier answers"), before, after);
    if want.is_err() {
        check_same(rt, &format_args!("{what}, all answers"), before, after);
    }
}

// One atom more over the bench: if it is refused, no answer changes, and else none of the earlier ones, and its mark is the next.
fn check_listing(
    rt: &impl Abort,
    what: &str,
    rule: Rule,
    listed: &[u16],
    p: u16,
    want: Result<(), Fault>,
    atoms: u16,
) {
    let before = ruled(rt, Bench, rule, listed);
    let mut after = ruled(rt, Bench, rule, listed);
    assert_eq!(rt; after.add(p), want, "{what}: {p} after {listed:?}");
    assert_eq!(rt;
        after.atoms(),
        atoms,
        "{what}: atoms with {p} after {listed:?}"
    );
    assert_eq!(rt;
        after.actions(),
        6,
        "{what}: actions with {p} after {listed:?}"
    );
    let case = format_args!("{what}, {p} after {listed:?}");
    check_answers(rt, &case, &before, &after, want);
}

fn check_each_rule(rt: &impl Abort, listed: &[u16], p: u16, want: Result<(), Fault>, atoms: u16) {
    for (what, rule) in [
        ("successor", rule(Successor, 2, 3, false)),
        ("strict successor", rule(Successor, 4, 1, true)),
        ("predecessor", rule(Predecessor, 4, 1, false)),
        ("strict predecessor", rule(Predecessor, 2, 3, true)),
    ] {
        check_listing(rt, what, rule, listed, p, want, atoms);
    }
}

#[test]
fn listing(rt: HostRuntime) {
    let bad = row_refused(Refusal::BadAtom);
    let rows: [(&[u16], u16, Result<(), Fault>, u16); 8] = [
        (&[], 0, Ok(()), 6),
        (&[], 4, Ok(()), 6),
        (&[], 5, bad, 5),
        (&[0], 2, Ok(()), 7),
        (&[0, 2], 3, Ok(()), 8),
        (&[0, 2], 2, bad, 7),
        (&[0, 2], 1, bad, 7),
        (&[0, 1, 2, 3, 4], 5, bad, 10),
    ];
    for (listed, p, want, atoms) in rows {
        check_each_rule(&rt, listed, p, want, atoms);
    }
}

fn check_joining(
    rt: &impl Abort,
    old: &[(u16, u16, u16)],
    (a, b, kind): (u16, u16, u16),
    want: Result<(), Fault>,
    actions: u16,
) {
    let before = joined(rt, Bench, old);
    let mut after = joined(rt, Bench, old);
    assert_eq!(rt; after.add(join(a, b, kind)), want, "{a}, {b} after {old:?}");
    assert_eq!(rt;
        after.actions(),
        actions,
        "actions with {a}, {b} after {old:?}"
    );
    assert_eq!(rt; after.atoms(), 5, "atoms with {a}, {b} after {old:?}");
    let case = format_args!("{a}, {b} after {old:?}");
    check_answers(rt, &case, &before, &after, want);
    if want.is_ok() {
        let last = actions.saturating_sub(1);
        assert_eq!(rt;
            (after.parts(last), after.kind(last)),
            (Some((a, b)), kind),
            "{case}, the new action"
        );
    }
}

#[test]
fn joining(rt: HostRuntime) {
    let rows: [(&[(u16, u16, u16)], (u16, u16, u16), Result<(), Fault>, u16); 8] = [
        (&[], (1, 2, 6), Ok(()), 7),
        (&[], (3, 1, 6), refused(Refusal::NotJoinable, 0, 0, 0, 0), 6),
        (
            &[],
            (6, 0, 6),
            refused(Refusal::UnknownAction, 1, 0, 0, 0),
            6,
        ),
        (&[(1, 2, 6)], (0, 3, 7), Ok(()), 8),
        (&[(1, 2, 6)], (1, 2, 6), Ok(()), 8),
        (
            &[(1, 2, 6)],
            (1, 6, 7),
            refused(Refusal::UnknownAction, 2, 0, 0, 0),
            7,
        ),
        (&[(1, 2, 6), (0, 3, 7)], (4, 1, 8), Ok(()), 9),
        (
            &[(1, 2, 6), (0, 3, 7)],
            (0, 1, 65535),
            row_refused(Refusal::BadKindOrName),
            8,
        ),
    ];
    for (old, row, want, actions) in rows {
        check_joining(&rt, old, row, want, actions);
    }
}

// Tables that are full, and one with room for a last row.
#[test]
fn full_tables(rt: HostRuntime) {
    let old = [(0, 1, 6); 16];
    for (len, row, want) in [
        (16, (0, 1, 6), row_refused(Refusal::TableFull)),
        (16, (4, 5, 6), refused(Refusal::NotJoinable, 0, 2, 0, 0)),
        (16, (4, 5, 65535), row_refused(Refusal::BadKindOrName)),
        (
            16,
            (0, 6, 65535),
            refused(Refusal::UnknownAction, 2, 0, 0, 0),
        ),
        (15, (0, 1, 6), Ok(())),
    ] {
        assert!(rt; len <= 16, "{len} rows, over 16");
        check_joining(&rt, &old[0..len], row, want, 22);
    }
}
