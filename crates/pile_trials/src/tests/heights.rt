use super::*;
use crate::tall::Tall;
use crate::tests::claimed::Claimed;
use crate::tests::same::check_same;
use pad::Bench;
use std::fmt::Display;
use std::process::Abort;

// A rule, a macro and a rule over the bench: mark 5 is of the first rule, and marks 6 and 7 are of the second.
pub fn tower(rt: &impl Abort) -> RuleLayer<MacroLayer<RuleLayer<Bench>>> {
    let first = ruled(rt, Bench, rule(Predecessor, 4, 1, false), &[0]);
    let middle = joined(rt, first, &[(1, 2, 6)]);
    ruled(rt, middle, rule(Successor, 2, 3, false), &[2, 3])
}

#[test]
fn first_heights(rt: HostRuntime) {
    let task = tower(&rt);
    assert_eq!(rt;
        (task.atoms(), task.actions(), task.height()),
        (8, 7, 3),
        "counts"
    );
    let rows = [
        (0, 0),
        (1, 0),
        (2, 0),
        (3, 0),
        (4, 0),
        (5, 1),
        (6, 3),
        (7, 3),
        (8, 0),
        (319, 0),
        (320, 0),
        (65535, 0),
    ];
    for (p, height) in rows {
        assert_eq!(rt; task.first_height(p), height, "atom {p}");
    }
}

#[test]
fn layers_of_faults(rt: HostRuntime) {
    let task = tower(&rt);
    check_plans(
        &rt,
        &"tower",
        &task,
        &[
            (&[], refused(Refusal::GoalNotMet, 1, 3, 1, 0)),
            (&[1], refused(Refusal::NotApplicable, 1, 0, 1, 0)),
            (&[0, 1], lacks_mark(2, 5, 1)),
            (&[0, 6], lacks_mark(2, 5, 1)),
            (&[0, 4, 6, 3], Ok(())),
            (&[0, 4, 6, 3, 5], Ok(())),
            (&[0, 4, 1, 2, 3], Ok(())),
            (&[0, 4, 1, 2, 3, 5], lacks_mark(6, 6, 3)),
        ],
    );
    let mut top = MacroLayer::new(task);
    for (a, b, atom, layer) in [
        (3, 1, 0, 0),
        (4, 3, 1, 0),
        (0, 1, 5, 1),
        (0, 6, 5, 1),
        (2, 5, 6, 3),
    ] {
        assert_eq!(rt;
            top.add(join(a, b, 9)),
            refused(Refusal::NotJoinable, 0, atom, 0, layer),
            "{a}, {b}"
        );
    }
}

// A height, the one of a layer over it and the one of a layer over that.
const HEIGHTS: [(u8, u8, u8); 6] = [
    (0, 1, 2),
    (1, 2, 3),
    (252, 253, 254),
    (253, 254, 255),
    (254, 255, 255),
    (255, 255, 255),
];

// The height of both layers over a task and of a mark there, and the same one layer higher.
fn check_heights<T: Task + Copy + Drop>(rt: &impl Abort, below: T, next: u8, last: u8) {
    let height = below.height();
    let rule = rule(Successor, 0, 1, false);
    let one = ruled(rt, below, rule, &[0]);
    assert_eq!(rt;
        (
            one.height(),
            one.first_height(0),
            one.first_height(1),
            one.first_height(2),
        ),
        (next, 0, next, 0),
        "a rule over {height}"
    );
    let two = ruled(rt, one, rule, &[1]);
    assert_eq!(rt;
        (
            two.height(),
            two.first_height(1),
            two.first_height(2),
            two.first_height(3),
        ),
        (last, next, last, 0),
        "two rules over {height}"
    );
    let macros = MacroLayer::new(MacroLayer::new(below));
    assert_eq!(rt; macros.height(), last, "two macro layers over {height}");
}

#[test]
fn heights_to_the_limit(rt: HostRuntime) {
    for (height, next, last) in HEIGHTS {
        check_heights(&rt, Tall::new(height), next, last);
    }
}

// The layers take a task whose pile is not built.
#[test]
fn heights_over_a_claim(rt: HostRuntime) {
    for (height, next, last) in HEIGHTS {
        check_heights(&rt, Claimed(height), next, last);
    }
}

fn check_raised<X: Task, Y: Task, D: Display>(rt: &impl Abort, what: &D, x: &X, y: &Y, height: u8) {
    check_same(rt, what, x, y);
    assert_eq!(rt; y.height(), height, "height of {what}");
}

// Layers with no row over the bench and over three layers.
#[test]
fn empty_layers(rt: HostRuntime) {
    for (what, rule) in [
        ("successor", rule(Successor, 2, 3, false)),
        ("strict successor", rule(Successor, 2, 3, true)),
        ("predecessor", rule(Predecessor, 4, 1, false)),
        ("strict predecessor", rule(Predecessor, 4, 1, true)),
    ] {
        check_raised(&rt, &what, &Bench, &RuleLayer::new(Bench, rule), 1);
        check_raised(
            &rt,
            &format_args!("{what} over layers"),
            &tower(&rt),
            &RuleLayer::new(tower(&rt), rule),
            4,
        );
    }
    check_raised(&rt, &"macros", &Bench, &MacroLayer::new(Bench), 1);
    check_raised(
        &rt,
        &"macros over layers",
        &tower(&rt),
        &MacroLayer::new(tower(&rt)),
        4,
    );
    let empties = MacroLayer::new(RuleLayer::new(Bench, rule(Successor, 2, 3, true)));
    check_raised(&rt, &"macros over a rule", &Bench, &empties, 2);
    let marked = ruled(&rt, empties, rule(Successor, 2, 3, true), &[2]);
    assert_eq!(rt;
        (marked.height(), marked.first_height(5)),
        (3, 3),
        "a mark over empty layers"
    );
}
