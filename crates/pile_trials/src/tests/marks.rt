use super::*;
use pad::Bench;
use std::process::Abort;

// Which actions need, delete and add the mark of atom `p`, which has the number 5.
fn check_mark(rt: &impl Abort, rule: Rule, p: u16, doing: [&[u16]; 3]) {
    let layer = ruled(rt, Bench, rule, &[p]);
    let (first, second) = (rule.first, rule.second);
    for a in [0, 1, 2, 3, 4, 5, 6, 7, 287, 288, 65535] {
        let got = [layer.needs(a), layer.deletes(a), layer.adds(a)].map(|set| set.contains(5));
        let want = doing.map(|actions| actions.contains(&a));
        assert_eq!(rt; got, want, "{first} for {second}, atom {p}, action {a}");
    }
}

// The kinds of a rule, a listed atom, and the actions that need, delete and add its mark.
type Row<'a> = (u16, u16, u16, [&'a [u16]; 3]);

fn check_marks(rt: &impl Abort, sort: RuleSort, rows: &[Row<'_>]) {
    for &(first, second, p, doing) in rows {
        check_mark(rt, rule(sort, first, second, false), p, doing);
    }
}

#[test]
fn of_successors(rt: HostRuntime) {
    check_marks(
        &rt,
        Successor,
        &[
            (2, 3, 0, [&[1, 2, 4], &[], &[0, 3, 4]]),
            (2, 3, 1, [&[], &[], &[1, 4]]),
            (2, 3, 2, [&[5], &[2], &[4]]),
            (4, 1, 0, [&[2, 4], &[4], &[0, 3]]),
            (0, 0, 0, [&[1, 2, 4], &[0], &[3, 4]]),
            (3, 5, 3, [&[], &[3], &[]]),
            (3, 3, 3, [&[5], &[3], &[]]),
            (1, 2, 4, [&[], &[], &[5]]),
            (65535, 65535, 0, [&[1, 2, 4], &[], &[0, 3, 4]]),
        ],
    );
}

#[test]
fn of_predecessors(rt: HostRuntime) {
    check_marks(
        &rt,
        Predecessor,
        &[
            (4, 1, 0, [&[1], &[0], &[4]]),
            (2, 3, 1, [&[3], &[1], &[]]),
            (2, 3, 2, [&[3], &[], &[2]]),
            (0, 0, 0, [&[], &[4], &[0]]),
            (4, 4, 0, [&[4], &[0], &[4]]),
            (3, 5, 3, [&[5], &[], &[3]]),
            (1, 2, 4, [&[], &[5], &[]]),
            (65535, 65535, 0, [&[], &[0, 4], &[]]),
        ],
    );
}

// Of two listed atoms: the atoms at first and those of the goal.
#[test]
fn at_the_ends(rt: HostRuntime) {
    let rows: [(&str, Rule, &[u16], &[u16]); 4] = [
        ("successor", rule(Successor, 2, 3, false), &[5, 6], &[3]),
        (
            "strict successor",
            rule(Successor, 2, 3, true),
            &[5, 6],
            &[3, 5, 6],
        ),
        ("predecessor", rule(Predecessor, 2, 3, false), &[5, 6], &[3]),
        (
            "strict predecessor",
            rule(Predecessor, 2, 3, true),
            &[],
            &[3],
        ),
    ];
    for (what, rule, initial, goal) in rows {
        let layer = ruled(&rt, Bench, rule, &[1, 3]);
        check_set(
            &rt,
            &format_args!("{what}, at first"),
            layer.initial(),
            initial,
        );
        check_set(&rt, &format_args!("{what}, goal"), layer.goal(), goal);
    }
}

// Each mark of a long list watches over its own atom: 0 to 4, behind the five atoms.
#[test]
fn in_order(rt: HostRuntime) {
    let layer = ruled(&rt, Bench, rule(Successor, 2, 3, false), &[0, 1, 2, 3, 4]);
    let rows: [(u16, &[u16], &[u16], &[u16]); 7] = [
        (0, &[], &[], &[0, 5]),
        (1, &[0, 5], &[], &[1, 6]),
        (2, &[0, 5], &[7], &[2]),
        (3, &[1, 2], &[0], &[3, 5, 8]),
        (4, &[0, 5], &[1, 2], &[0, 5, 6, 7]),
        (5, &[2, 3, 7, 8], &[], &[4, 9]),
        (6, &[], &[], &[]),
    ];
    for (a, needs, deletes, adds) in rows {
        check_sets(
            &rt,
            &format_args!("action {a}"),
            &layer,
            a,
            [needs, deletes, adds],
        );
    }
}
