use super::*;
use pad::Bench;

// Load-keys uses atom 0 only as reset left it.
fn reset_first() -> Rule {
    rule(Predecessor, 4, 1, false)
}

// Of what align left of atom 2, seal alone makes use.
fn align_for_seal() -> Rule {
    rule(Successor, 2, 3, false)
}

#[test]
fn macros_over_a_rule(rt: HostRuntime) {
    let rule = ruled(&rt, Bench, reset_first(), &[0]);
    let mut layer = joined(&rt, rule, &[(4, 1, 6), (1, 2, 7)]);
    check_sets(
        &rt,
        &"reset, load-keys",
        &layer,
        6,
        [&[0], &[1, 2], &[0, 1, 5]],
    );
    check_sets(&rt, &"load-keys, align", &layer, 7, [&[0, 5], &[], &[1, 2]]);
    check_plans(
        &rt,
        &"macros over a rule",
        &layer,
        &[
            (&[0, 6, 2, 3], Ok(())),
            (&[0, 7, 3], lacks_mark(2, 5, 1)),
            (&[0, 4, 7, 3], Ok(())),
            (&[0, 6, 7, 3], Ok(())),
            (&[7], refused(Refusal::NotApplicable, 1, 0, 1, 0)),
            (&[0, 6, 0, 7], lacks_mark(4, 5, 1)),
        ],
    );
    let clash = refused(Refusal::NotJoinable, 0, 5, 0, 1);
    assert_eq!(rt; layer.add(join(0, 1, 8)), clash, "power-on, load-keys");
}

#[test]
fn macros_over_two_rules(rt: HostRuntime) {
    let first = ruled(&rt, Bench, reset_first(), &[0]);
    let second = ruled(&rt, first, align_for_seal(), &[2]);
    let layer = joined(&rt, second, &[(1, 2, 6)]);
    check_sets(
        &rt,
        &"load-keys, align",
        &layer,
        6,
        [&[0, 5], &[6], &[1, 2]],
    );
    check_plans(
        &rt,
        &"macros over two rules",
        &layer,
        &[
            (&[0, 4, 6, 3], Ok(())),
            (&[0, 6, 3], lacks_mark(2, 5, 1)),
            (&[0, 4, 6, 3, 5], lacks_mark(5, 6, 2)),
            (&[0, 4, 6, 5], refused(Refusal::NotApplicable, 4, 3, 2, 0)),
        ],
    );
}

// A rule reads the macro's own kind.
#[test]
fn a_rule_over_macros(rt: HostRuntime) {
    let rows: [(u16, &[u16], Result<(), Fault>); 5] = [
        (6, &[0, 6, 3, 5], Ok(())),
        (6, &[0, 1, 2, 3, 5], lacks_mark(5, 5, 2)),
        (2, &[0, 6, 3, 5], lacks_mark(4, 5, 2)),
        (2, &[0, 6, 3], Ok(())),
        (3, &[0, 6, 3, 5], Ok(())),
    ];
    for (kind, plan, want) in rows {
        let layer = ruled(
            &rt,
            joined(&rt, Bench, &[(1, 2, kind)]),
            align_for_seal(),
            &[2],
        );
        assert_eq!(rt; judge(&layer, plan), want, "kind {kind}, plan {plan:?}");
    }
}

// Seal and then inspect as one action that uses what align left.
#[test]
fn a_rule_over_a_macro_that_uses(rt: HostRuntime) {
    for (kind, want) in [
        (2, lacks_mark(4, 5, 2)),
        (3, Ok(())),
        (5, lacks_mark(4, 5, 2)),
    ] {
        let layer = ruled(
            &rt,
            joined(&rt, Bench, &[(3, 5, kind)]),
            align_for_seal(),
            &[2],
        );
        assert_eq!(rt; judge(&layer, &[0, 1, 2, 6]), want, "kind {kind}");
    }
}

#[test]
fn two_rules_over_macros(rt: HostRuntime) {
    let macros = joined(&rt, Bench, &[(1, 2, 6), (0, 1, 1)]);
    let first = ruled(&rt, macros, align_for_seal(), &[2]);
    let layer = ruled(&rt, first, reset_first(), &[0]);
    check_plans(
        &rt,
        &"two rules over macros",
        &layer,
        &[
            (&[0, 6, 3], Ok(())),
            (&[0, 6, 3, 5], Ok(())),
            (&[0, 1, 2, 3], lacks_mark(2, 6, 3)),
            (&[0, 4, 1, 2, 3, 5], lacks_mark(6, 5, 2)),
            (&[7, 2, 3], Ok(())),
            (&[7, 1, 2, 3], lacks_mark(2, 6, 3)),
            (&[7, 4, 1, 2, 3], Ok(())),
        ],
    );
}

// Two macro layers, and what is over the limits there.
#[test]
fn macros_of_macros(rt: HostRuntime) {
    let first = joined(&rt, Bench, &[(0, 1, 6), (2, 3, 7)]);
    let second = joined(&rt, first, &[(6, 7, 8), (7, 5, 9)]);
    let layer = joined(&rt, second, &[(8, 0, 10), (6, 9, 11)]);
    let rows: [(u16, (u16, u16), &[u16], &[u16], &[u16], &[u16]); 6] = [
        (6, (0, 1), &[0, 1], &[], &[], &[0, 1]),
        (7, (2, 3), &[2, 3], &[0, 1], &[0], &[2, 3]),
        (8, (6, 7), &[0, 1, 2, 3], &[], &[0], &[1, 2, 3]),
        (9, (7, 5), &[2, 3, 5], &[0, 1], &[0], &[2, 3, 4]),
        (10, (8, 0), &[0, 1, 2, 3, 0], &[], &[0], &[0, 1, 2, 3]),
        (11, (6, 9), &[0, 1, 2, 3, 5], &[], &[0], &[1, 2, 3, 4]),
    ];
    for (a, parts, base, needs, deletes, adds) in rows {
        check_sets(
            &rt,
            &format_args!("action {a}"),
            &layer,
            a,
            [needs, deletes, adds],
        );
        assert_eq!(rt;
            (layer.parts(a), layer.kind(a)),
            (Some(parts), a),
            "parts and kind of {a}"
        );
        let steps = layer.base_steps(a);
        assert_eq!(rt; steps.as_slice(), base, "steps of {a}");
    }
    check_plans(
        &rt,
        &"macros of macros",
        &layer,
        &[
            (&[8], Ok(())),
            (&[10, 4], Ok(())),
            (&[8, 4], refused(Refusal::NotApplicable, 2, 0, 1, 0)),
            (&[7], refused(Refusal::NotApplicable, 1, 0, 2, 0)),
            (&[11], Ok(())),
        ],
    );
}

// Up to 8 base steps: actions 10 and 11 have 8, and 10 deletes atom 0.
#[test]
fn base_steps(rt: HostRuntime) {
    let first = joined(&rt, Bench, &[(0, 1, 6), (2, 3, 7)]);
    let second = joined(&rt, first, &[(6, 6, 8), (6, 7, 9)]);
    let third = joined(&rt, second, &[(8, 9, 10), (8, 8, 11), (8, 6, 12)]);
    assert_eq!(rt;
        third.base_steps(10).as_slice(),
        [0, 1, 0, 1, 0, 1, 2, 3].as_slice(),
        "action 10"
    );
    let over = row_refused(Refusal::OverLimit);
    let rows = [
        (12, 6, Ok(()), 8),
        (6, 12, Ok(()), 8),
        (12, 8, over, 0),
        (11, 0, over, 0),
        (0, 11, over, 0),
        (10, 0, over, 0),
        (11, 11, over, 0),
        (10, 1, refused(Refusal::NotJoinable, 0, 0, 0, 0), 0),
        (8, 8, Ok(()), 8),
    ];
    let mut layer = MacroLayer::new(third);
    for (a, b, want, steps) in rows {
        let next = layer.actions();
        assert_eq!(rt; layer.add(join(a, b, 0)), want, "{a}, {b}");
        assert_eq!(rt; layer.base_steps(next).len(), steps, "steps of {a}, {b}");
    }
}

// With 16 rows the table is full before the base steps are too many.
#[test]
fn full_before_long(rt: HostRuntime) {
    let first = joined(&rt, Bench, &[(0, 1, 6)]);
    let second = joined(&rt, first, &[(6, 6, 7)]);
    let third = joined(&rt, second, &[(7, 7, 8)]);
    let mut layer = joined(&rt, third, &[(0, 1, 9); 15]);
    assert_eq!(rt;
        layer.add(join(8, 0, 9)),
        row_refused(Refusal::OverLimit),
        "15 rows"
    );
    assert_eq!(rt; layer.add(join(0, 1, 9)), Ok(()), "row 16");
    assert_eq!(rt;
        layer.add(join(8, 0, 9)),
        row_refused(Refusal::TableFull),
        "16 rows"
    );
}
