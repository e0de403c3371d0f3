use super::*;
use crate::Full;
use std::process::Abort;
use tasks::task::Task;

fn check_plans(rt: &impl Abort, n: u16, rows: &[(&[u16], Result<(), Fault>)]) {
    for (plan, want) in rows {
        assert_eq!(rt;
            Full::new(n, 0).judge(plan),
            *want,
            "{n} atoms, plan {plan:?}"
        );
    }
}

#[test]
fn plans_of_every_size(rt: HostRuntime) {
    check_plans(
        &rt,
        0,
        &[
            (&[], Ok(())),
            (&[0], Ok(())),
            (&[1], Ok(())),
            (&[0, 1], Ok(())),
        ],
    );
    for n in [1, 63, 64, 65, 319, 320] {
        check_plans(
            &rt,
            n,
            &[
                (&[], refused(Refusal::GoalNotMet, 1, 0, n, 0)),
                (&[0], Ok(())),
                (&[1], refused(Refusal::NotApplicable, 1, 0, n, 0)),
                (&[0, 1], refused(Refusal::GoalNotMet, 3, 0, n, 0)),
                (&[0, 1, 0], Ok(())),
                (&[0, 2], refused(Refusal::UnknownAction, 2, 0, 0, 0)),
            ],
        );
    }
}

// How many atoms a set has, the lowest and the greatest.
type Ends = (u16, Option<u16>, Option<u16>);

fn check_all<D: Display>(rt: &impl Abort, what: &D, set: Atoms, ends: Ends) {
    let n = ends.0;
    assert_eq!(rt; (set.count(), set.lowest(), set.greatest()), ends, "{what}");
    assert!(rt; !set.contains(n), "{what}: atom {n}");
}

fn check_size(rt: &impl Abort, given: u16, ends: Ends) {
    let task = Full::new(given, 0);
    assert_eq!(rt; task.atoms(), ends.0, "{given} atoms");
    check_all(rt, &format_args!("goal of {given}"), task.goal(), ends);
    check_all(rt, &format_args!("adds of {given}"), task.adds(0), ends);
    check_all(rt, &format_args!("needs of {given}"), task.needs(1), ends);
    check_all(
        rt,
        &format_args!("deletes of {given}"),
        task.deletes(1),
        ends,
    );
    assert!(rt; task.initial().is_empty(), "initial of {given}");
    assert_eq!(rt;
        [
            task.needs(0).count(),
            task.deletes(0).count(),
            task.adds(1).count(),
        ],
        [0, 0, 0],
        "{given} atoms"
    );
}

// How many atoms are asked for, how many there are, the lowest and the greatest.
#[test]
fn sets_of_every_size(rt: HostRuntime) {
    let rows = [
        (0, 0, None, None),
        (1, 1, Some(0), Some(0)),
        (63, 63, Some(0), Some(62)),
        (64, 64, Some(0), Some(63)),
        (65, 65, Some(0), Some(64)),
        (319, 319, Some(0), Some(318)),
        (320, 320, Some(0), Some(319)),
        (321, 320, Some(0), Some(319)),
        (65535, 320, Some(0), Some(319)),
    ];
    for (given, n, low, high) in rows {
        check_size(&rt, given, (n, low, high));
    }
}

// The kind asked for, and the one that both actions have.
#[test]
fn kinds(rt: HostRuntime) {
    for (given, kind) in [
        (0, 0),
        (1, 1),
        (65533, 65533),
        (65534, 65534),
        (65535, 65534),
    ] {
        let task = Full::new(5, given);
        assert_eq!(rt;
            [task.kind(0), task.kind(1), task.kind(2)],
            [kind, kind, 65535],
            "kind {given}"
        );
    }
}
