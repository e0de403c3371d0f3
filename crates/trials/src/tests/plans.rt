use super::*;
use pad::Bench;
use std::process::Abort;
use tasks::{Action, step, wants};

const ROOM: usize = 300;

// A plan that is all power-on but for these steps, which are numbered from 0 here.
fn plan_with(steps: &[(usize, u16)]) -> [u16; ROOM] {
    let mut plan = [0; ROOM];
    for &(i, a) in steps {
        if let Some(step) = plan.get_mut(i) {
            *step = a;
        }
    }
    plan
}

#[test]
fn worked_plans(rt: HostRuntime) {
    let rows: [(&[u16], Result<(), Fault>); 8] = [
        (&[], refused(Refusal::GoalNotMet, 1, 3, 1, 0)),
        (&[0, 1, 2, 3], Ok(())),
        (&[0, 3], refused(Refusal::NotApplicable, 2, 1, 2, 0)),
        (&[0, 6], refused(Refusal::UnknownAction, 2, 0, 0, 0)),
        (&[65535], refused(Refusal::UnknownAction, 1, 0, 0, 0)),
        (&[4], refused(Refusal::NotApplicable, 1, 0, 1, 0)),
        (&[0, 1, 3], refused(Refusal::NotApplicable, 3, 2, 1, 0)),
        (&[0, 1, 2], refused(Refusal::GoalNotMet, 4, 3, 1, 0)),
    ];
    for (plan, want) in rows {
        assert_eq!(rt; Bench.judge(plan), want, "plan {plan:?}");
    }
}

// Plans that are all power-on but for the listed steps.
#[test]
fn long_plans(rt: HostRuntime) {
    let rows: [(usize, &[(usize, u16)], Result<(), Fault>); 12] = [
        (0, &[], refused(Refusal::GoalNotMet, 1, 3, 1, 0)),
        (1, &[], refused(Refusal::GoalNotMet, 2, 3, 1, 0)),
        (255, &[(252, 1), (253, 2), (254, 3)], Ok(())),
        (256, &[(253, 1), (254, 2), (255, 3)], Ok(())),
        (256, &[], refused(Refusal::GoalNotMet, 257, 3, 1, 0)),
        (
            256,
            &[(255, 6)],
            refused(Refusal::UnknownAction, 256, 0, 0, 0),
        ),
        (257, &[], refused(Refusal::TooManySteps, 257, 0, 0, 0)),
        (
            257,
            &[(254, 1), (255, 2), (256, 3)],
            refused(Refusal::TooManySteps, 257, 0, 0, 0),
        ),
        (
            257,
            &[(256, 6)],
            refused(Refusal::TooManySteps, 257, 0, 0, 0),
        ),
        (
            257,
            &[(256, 3)],
            refused(Refusal::TooManySteps, 257, 0, 0, 0),
        ),
        (300, &[], refused(Refusal::TooManySteps, 257, 0, 0, 0)),
        (300, &[(1, 3)], refused(Refusal::NotApplicable, 2, 1, 2, 0)),
    ];
    for (len, steps, want) in rows {
        assert!(rt; len <= ROOM, "{len} steps, over {ROOM}");
        let plan = plan_with(steps);
        assert_eq!(rt; Bench.judge(&plan[0..len]), want, "{len} steps, {steps:?}");
    }
}

// One step from the empty state, and the state after it.
#[test]
fn steps_at_places(rt: HostRuntime) {
    let rows: [(usize, u16, Result<&[u16], Fault>); 8] = [
        (1, 0, Ok(&[0])),
        (256, 0, Ok(&[0])),
        (256, 1, refused(Refusal::NotApplicable, 256, 0, 1, 0)),
        (256, 6, refused(Refusal::UnknownAction, 256, 0, 0, 0)),
        (257, 0, refused(Refusal::TooManySteps, 257, 0, 0, 0)),
        (257, 1, refused(Refusal::TooManySteps, 257, 0, 0, 0)),
        (257, 6, refused(Refusal::TooManySteps, 257, 0, 0, 0)),
        (65536, 0, refused(Refusal::TooManySteps, 65536, 0, 0, 0)),
    ];
    for (place, a, want) in rows {
        let got = step(&Bench, place, a, Atoms::empty());
        assert_eq!(rt; got, want.map(set_of), "place {place}, action {a}");
    }
}

// A state, what an action deletes and what it adds, and the state after it: what it does both with stays.
#[test]
fn states_after_actions(rt: HostRuntime) {
    let rows: [(&[u16], &[u16], &[u16], &[u16]); 6] = [
        (&[], &[], &[], &[]),
        (&[63], &[63], &[64], &[64]),
        (&[63], &[63], &[63], &[63]),
        (&[], &[319], &[319], &[319]),
        (&[0, 1], &[1, 2], &[2, 3], &[0, 2, 3]),
        (&[0, 319], &[64], &[0], &[0, 319]),
    ];
    for (state, deletes, adds, after) in rows {
        let action = Action {
            deletes: set_of(deletes),
            adds: set_of(adds),
            ..Action::unknown()
        };
        check_set(
            &rt,
            &format_args!("{state:?} without {deletes:?}, with {adds:?}"),
            action.after(set_of(state)),
            after,
        );
    }
}

#[test]
fn wanted_before_plans(rt: HostRuntime) {
    let rows: [(&[u16], Option<&[u16]>); 9] = [
        (&[], Some(&[3])),
        (&[3], Some(&[1, 2])),
        (&[2, 3], Some(&[0, 1])),
        (&[1, 2, 3], Some(&[0])),
        (&[0, 1, 2, 3], Some(&[])),
        (&[3, 1], None),
        (&[4, 3], None),
        (&[6], None),
        (&[6, 0, 1, 2, 3], None),
    ];
    for (plan, atoms) in rows {
        assert_eq!(rt; wants(&Bench, plan), atoms.map(set_of), "plan {plan:?}");
    }
}
