use super::*;
use crate::Wide;
use pad::{Bench, judge_ruled};
use std::process::Abort;

fn check_rule<T: Task + Drop>(
    rt: &impl Abort,
    below: T,
    rule: Rule,
    listed: &[u16],
    rows: &[(&[u16], Result<(), Fault>)],
) {
    let (first, second, strict) = (rule.first, rule.second, rule.strict);
    let layer = ruled(rt, below, rule, listed);
    check_plans(
        rt,
        &format_args!("kinds {first}, {second}, strict {strict}, atoms {listed:?}"),
        &layer,
        rows,
    );
}

// Only reset provides atom 0 for load-keys.
#[test]
fn predecessors(rt: HostRuntime) {
    check_rule(
        &rt,
        Bench,
        rule(Predecessor, 4, 1, false),
        &[0],
        &[
            (&[], refused(Refusal::GoalNotMet, 1, 3, 1, 0)),
            (&[0, 1, 2, 3], lacks_mark(2, 5, 1)),
            (&[0, 4, 1, 2, 3], Ok(())),
            (&[0, 4, 1, 1, 2, 3], Ok(())),
            (&[0, 4, 2, 1, 3], Ok(())),
            (&[0, 4, 0, 1, 2, 3], lacks_mark(4, 5, 1)),
            (&[0, 4, 1, 0, 2, 3], Ok(())),
            (&[1], refused(Refusal::NotApplicable, 1, 0, 1, 0)),
            (&[0, 3], refused(Refusal::NotApplicable, 2, 1, 2, 0)),
            (
                &[0, 4, 1, 2, 3, 1],
                refused(Refusal::NotApplicable, 6, 0, 1, 0),
            ),
            (
                &[0, 2, 4, 1, 3],
                refused(Refusal::NotApplicable, 5, 2, 1, 0),
            ),
            (&[0, 4, 1, 2], refused(Refusal::GoalNotMet, 5, 3, 1, 0)),
            (&[0, 6], refused(Refusal::UnknownAction, 2, 0, 0, 0)),
        ],
    );
}

#[test]
fn strict_predecessors(rt: HostRuntime) {
    check_rule(
        &rt,
        Bench,
        rule(Predecessor, 4, 1, true),
        &[0],
        &[
            (&[], refused(Refusal::GoalNotMet, 1, 3, 1, 0)),
            (&[1], refused(Refusal::NotApplicable, 1, 0, 2, 0)),
            (&[0, 1, 2, 3], lacks_mark(2, 5, 1)),
            (&[0, 4, 1, 2, 3], Ok(())),
        ],
    );
    let free: &[(&[u16], Result<(), Fault>)] = &[
        (&[], refused(Refusal::GoalNotMet, 1, 1, 1, 0)),
        (&[0], Ok(())),
        (&[1], Ok(())),
        (&[0, 0], lacks_mark(2, 2, 1)),
        (&[1, 0], Ok(())),
        (&[1, 0, 0], lacks_mark(3, 2, 1)),
        (&[0, 1, 0], Ok(())),
    ];
    check_rule(
        &rt,
        Wide::new(2),
        rule(Predecessor, 1, 0, false),
        &[0],
        free,
    );
    let strict: &[(&[u16], Result<(), Fault>)] = &[
        (&[], refused(Refusal::GoalNotMet, 1, 1, 1, 0)),
        (&[0], lacks_mark(1, 2, 1)),
        (&[1], Ok(())),
        (&[1, 0], Ok(())),
        (&[1, 0, 0], lacks_mark(3, 2, 1)),
        (&[1, 1, 0], Ok(())),
    ];
    check_rule(
        &rt,
        Wide::new(2),
        rule(Predecessor, 1, 0, true),
        &[0],
        strict,
    );
}

// Of what align left of atom 2, seal alone makes use.
#[test]
fn successors(rt: HostRuntime) {
    check_rule(
        &rt,
        Bench,
        rule(Successor, 2, 3, false),
        &[2],
        &[
            (&[], refused(Refusal::GoalNotMet, 1, 3, 1, 0)),
            (&[0, 1, 2, 3], Ok(())),
            (&[0, 1, 2, 2, 3], Ok(())),
            (&[0, 1, 2, 3, 5], lacks_mark(5, 5, 1)),
            (&[0, 2, 5], refused(Refusal::NotApplicable, 3, 3, 2, 0)),
            (&[0, 1, 2, 3, 0, 4], Ok(())),
            (
                &[0, 1, 2, 3, 0, 4, 5],
                refused(Refusal::NotApplicable, 7, 2, 1, 0),
            ),
            (&[0, 1, 2, 3, 0, 4, 2, 5], lacks_mark(8, 5, 1)),
        ],
    );
}

#[test]
fn strict_successors(rt: HostRuntime) {
    check_rule(
        &rt,
        Bench,
        rule(Successor, 2, 3, true),
        &[2],
        &[
            (&[], refused(Refusal::GoalNotMet, 1, 3, 1, 0)),
            (&[0, 2], refused(Refusal::GoalNotMet, 3, 3, 2, 0)),
            (&[0, 1, 2, 3], refused(Refusal::GoalNotMet, 5, 5, 1, 1)),
            (&[0, 1, 2, 3, 5], lacks_mark(5, 5, 1)),
            (&[0, 1, 2, 3, 0, 4], Ok(())),
            (
                &[0, 1, 2, 3, 0, 4, 2],
                refused(Refusal::GoalNotMet, 8, 5, 1, 1),
            ),
        ],
    );
    let rows: &[(&[u16], Result<(), Fault>)] = &[
        (&[0], refused(Refusal::GoalNotMet, 2, 2, 2, 1)),
        (&[0, 0], lacks_mark(2, 2, 1)),
        (&[1], Ok(())),
        (&[0, 1], Ok(())),
        (&[0, 1, 0], refused(Refusal::GoalNotMet, 4, 2, 2, 1)),
    ];
    check_rule(
        &rt,
        Wide::new(2),
        rule(Successor, 0, 1, true),
        &[0, 1],
        rows,
    );
}

#[test]
fn several_atoms(rt: HostRuntime) {
    check_rule(
        &rt,
        Bench,
        rule(Successor, 4, 1, false),
        &[0, 1, 2],
        &[
            (&[0, 4, 1, 2, 3], lacks_mark(4, 5, 1)),
            (&[0, 4, 4], lacks_mark(3, 5, 1)),
            (&[0, 4, 0, 2, 1, 3], Ok(())),
            (&[0, 1, 2, 3], Ok(())),
        ],
    );
}

// A rule for what seal needs: its first kind, whether it is strict, a plan and the verdict.
#[test]
fn two_atoms_for_one_use(rt: HostRuntime) {
    let both = refused(Refusal::NotApplicable, 4, 5, 2, 1);
    let service: &[u16] = &[0, 1, 2, 3];
    for (first, strict, plan, want) in [
        (2, false, service, lacks_mark(4, 5, 1)),
        (2, true, service, lacks_mark(4, 5, 1)),
        (1, false, service, lacks_mark(4, 6, 1)),
        (4, false, service, both),
        (4, true, service, both),
        (2, false, &[3], refused(Refusal::NotApplicable, 1, 1, 2, 0)),
        (2, true, &[3], refused(Refusal::NotApplicable, 1, 1, 4, 0)),
    ] {
        let rule = rule(Predecessor, first, 3, strict);
        check_rule(&rt, Bench, rule, &[1, 2], &[(plan, want)]);
    }
}

// The bench under a rule for one atom, which may be refused.
#[test]
fn one_atom_on_the_bench(rt: HostRuntime) {
    let rows: [(u16, &[u16], Result<(), Fault>); 5] = [
        (0, &[0, 1, 2, 3], lacks_mark(2, 5, 1)),
        (0, &[0, 4, 1, 2, 3], Ok(())),
        (1, &[0, 1, 2, 3], Ok(())),
        (5, &[0, 1, 2, 3], Ok(())),
        (65535, &[0, 3], refused(Refusal::NotApplicable, 2, 1, 2, 0)),
    ];
    for (p, plan, want) in rows {
        let got = judge_ruled(rule(Predecessor, 4, 1, false), p, plan);
        assert_eq!(rt; got, want, "atom {p}, plan {plan:?}");
    }
}
