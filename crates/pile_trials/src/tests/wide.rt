use super::*;
use crate::Wide;

// How many actions are asked for, how many there are, the last of them, and its kind.
#[test]
fn sizes(rt: HostRuntime) {
    for (given, n, last, kind) in [
        (0, 0, 0, 65535),
        (1, 1, 0, 0),
        (287, 287, 286, 286),
        (288, 288, 287, 287),
        (289, 288, 287, 287),
        (65535, 288, 287, 287),
    ] {
        let task = Wide::new(given);
        assert_eq!(rt;
            (task.actions(), task.kind(last), task.kind(n)),
            (n, kind, 65535),
            "{given} actions"
        );
    }
}

#[test]
fn plans(rt: HostRuntime) {
    let rows: [(u16, &[u16], Result<(), Fault>); 5] = [
        (0, &[0], refused(Refusal::UnknownAction, 1, 0, 0, 0)),
        (1, &[], refused(Refusal::GoalNotMet, 1, 1, 1, 0)),
        (1, &[0, 0], Ok(())),
        (288, &[287], Ok(())),
        (
            288,
            &[287, 288],
            refused(Refusal::UnknownAction, 2, 0, 0, 0),
        ),
    ];
    for (n, plan, want) in rows {
        assert_eq!(rt;
            Wide::new(n).judge(plan),
            want,
            "{n} actions, plan {plan:?}"
        );
    }
}
