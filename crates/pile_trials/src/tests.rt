// Each test goes through a table: a row that fails ends it, and is named by the message.
mod claimed;
mod growth;
mod heights;
mod macro_rows;
mod macros;
mod marks;
mod piles;
mod rule_rows;
mod rules;
mod same;
mod wide;

use atoms::Atoms;
use layers::{MacroLayer, RuleLayer};
use planning::RuleSort::{Predecessor, Successor};
use planning::{Fault, Join, Refusal, Rule, RuleSort};
use std::fmt::Display;
use std::process::Abort;
use tasks::judge;
use tasks::task::Task;
use trials::faults::refused;

// What a row is to get whose refusal fills no other field.
fn row_refused(refusal: Refusal) -> Result<(), Fault> {
    refused(refusal, 0, 0, 0, 0)
}

// What a plan is to get whose step at `place` lacks one mark.
fn lacks_mark(place: usize, mark: u16, layer: u8) -> Result<(), Fault> {
    refused(Refusal::NotApplicable, place, mark, 1, layer)
}

fn rule(sort: RuleSort, first: u16, second: u16, strict: bool) -> Rule {
    Rule {
        sort,
        first,
        second,
        strict,
    }
}

fn join(first: u16, second: u16, kind: u16) -> Join {
    Join {
        first,
        second,
        kind,
    }
}

// A rule layer that lists these atoms; `joined` is apart, since a trait over both sorts of layer would be longer than the two
// functions.
fn ruled<T: Task + Drop>(rt: &impl Abort, below: T, rule: Rule, listed: &[u16]) -> RuleLayer<T> {
    let mut layer = RuleLayer::new(below, rule);
    for p in listed {
        assert_eq!(rt; layer.add(*p), Ok(()), "listing {p}");
    }
    layer
}

// A macro layer of these rows.
fn joined<T: Task + Drop>(rt: &impl Abort, below: T, rows: &[(u16, u16, u16)]) -> MacroLayer<T> {
    let mut layer = MacroLayer::new(below);
    for (a, b, kind) in rows {
        assert_eq!(rt; layer.add(join(*a, *b, *kind)), Ok(()), "joining {a}, {b}");
    }
    layer
}

// The set has the atoms of the list, which names none twice, and no others. As in the tests of trials, which another crate can't
// use; outside of tests no function of this repository takes an `Abort`.
fn check_set<D: Display>(rt: &impl Abort, what: &D, set: Atoms, atoms: &[u16]) {
    for p in atoms {
        assert!(rt; set.contains(*p), "{what}: atom {p}");
    }
    assert_eq!(rt; usize::from(set.count()), atoms.len(), "{what}");
}

fn check_plans<T: Task, D: Display>(
    rt: &impl Abort,
    what: &D,
    task: &T,
    rows: &[(&[u16], Result<(), Fault>)],
) {
    for (plan, want) in rows {
        assert_eq!(rt; judge(task, plan), *want, "{what}: plan {plan:?}");
    }
}

// An action: what it needs, deletes and adds.
fn check_sets<T: Task, D: Display>(
    rt: &impl Abort,
    what: &D,
    task: &T,
    a: u16,
    [needs, deletes, adds]: [&[u16]; 3],
) {
    check_set(rt, &format_args!("needs of {what}"), task.needs(a), needs);
    check_set(
        rt,
        &format_args!("deletes of {what}"),
        task.deletes(a),
        deletes,
    );
    check_set(rt, &format_args!("adds of {what}"), task.adds(a), adds);
}
