use super::*;
use pad::{Bench, judge_joined};

// Two actions of the bench, and what they need, delete and add as one.
#[test]
fn joined_actions(rt: HostRuntime) {
    let rows: [(u16, u16, &[u16], &[u16], &[u16]); 14] = [
        (0, 0, &[], &[], &[0]),
        (0, 3, &[1, 2], &[0], &[3]),
        (0, 4, &[], &[1, 2], &[0]),
        (1, 2, &[0], &[], &[1, 2]),
        (1, 4, &[0], &[1, 2], &[0]),
        (2, 3, &[0, 1], &[0], &[2, 3]),
        (2, 4, &[0], &[1, 2], &[0]),
        (3, 0, &[1, 2], &[0], &[0, 3]),
        (3, 5, &[1, 2], &[0], &[3, 4]),
        (4, 0, &[0], &[1, 2], &[0]),
        (4, 1, &[0], &[1, 2], &[0, 1]),
        (4, 4, &[0], &[1, 2], &[0]),
        (5, 2, &[0, 2, 3], &[], &[2, 4]),
        (5, 5, &[2, 3], &[], &[4]),
    ];
    for (a, b, needs, deletes, adds) in rows {
        let layer = joined(&rt, Bench, &[(a, b, 77)]);
        check_sets(
            &rt,
            &format_args!("{a}, {b}"),
            &layer,
            6,
            [needs, deletes, adds],
        );
        assert_eq!(rt; layer.kind(6), 77, "kind of {a}, {b}");
        assert_eq!(rt; layer.parts(6), Some((a, b)), "parts of {a}, {b}");
        let base = layer.base_steps(6);
        assert_eq!(rt; base.as_slice(), [a, b].as_slice(), "steps of {a}, {b}");
    }
}

#[test]
fn plans(rt: HostRuntime) {
    let layer = joined(&rt, Bench, &[(1, 2, 6), (0, 3, 7)]);
    check_plans(
        &rt,
        &"two macros",
        &layer,
        &[
            (&[], refused(Refusal::GoalNotMet, 1, 3, 1, 0)),
            (&[0, 1, 2, 3], Ok(())),
            (&[0, 6, 3], Ok(())),
            (&[0, 6, 7], Ok(())),
            (&[6], refused(Refusal::NotApplicable, 1, 0, 1, 0)),
            (&[7], refused(Refusal::NotApplicable, 1, 1, 2, 0)),
            (&[0, 1, 7], refused(Refusal::NotApplicable, 3, 2, 1, 0)),
            (&[0, 6], refused(Refusal::GoalNotMet, 3, 3, 1, 0)),
            (&[0, 6, 7, 1], refused(Refusal::NotApplicable, 4, 0, 1, 0)),
            (&[0, 6, 8], refused(Refusal::UnknownAction, 3, 0, 0, 0)),
        ],
    );
}

// The bench with one macro, which may be refused.
#[test]
fn one_row_on_the_bench(rt: HostRuntime) {
    let rows: [((u16, u16, u16), &[u16], Result<(), Fault>); 5] = [
        ((1, 2, 6), &[0, 6, 3], Ok(())),
        ((1, 2, 6), &[6], refused(Refusal::NotApplicable, 1, 0, 1, 0)),
        (
            (3, 1, 6),
            &[0, 6],
            refused(Refusal::UnknownAction, 2, 0, 0, 0),
        ),
        ((3, 1, 6), &[0, 1, 2, 3], Ok(())),
        ((6, 0, 6), &[6], refused(Refusal::UnknownAction, 1, 0, 0, 0)),
    ];
    for ((a, b, kind), plan, want) in rows {
        let got = judge_joined(join(a, b, kind), plan);
        assert_eq!(rt; got, want, "{a}, {b}, plan {plan:?}");
    }
}
