// Plans under a rule, with a macro, and over piles of three layers.
use crate::show::{show_plan, show_row, show_title};
use layers::{MacroLayer, RuleLayer};
use pad::{Bench, judge_joined, judge_ruled};
use planning::{Join, Rule, RuleSort};
use std::io;
use tasks::judge;
use tasks::task::Task;

// Load-keys uses `on` only as reset left it.
pub const RESET_FIRST: Rule = Rule {
    sort: RuleSort::Predecessor,
    first: 4,
    second: 1,
    strict: false,
};

// Of what align left, seal alone makes use.
pub const ALIGN_FOR_SEAL: Rule = Rule {
    sort: RuleSort::Successor,
    first: 2,
    second: 3,
    strict: false,
};

const ALIGN_FOR_SEAL_STRICT: Rule = Rule {
    strict: true,
    ..ALIGN_FOR_SEAL
};

// Load-keys and then align.
pub const PREPARE: Join = Join {
    first: 1,
    second: 2,
    kind: 6,
};

// Seal and then load-keys: seal switches off what load-keys needs.
const RELOAD: Join = Join {
    first: 3,
    second: 1,
    kind: 7,
};

// A layer of one row; `joined` is apart, since a trait over both sorts of layer would need a member for the row, for the rows' task and
// for `add`, to save one of these two.
fn ruled<T: Task + Drop>(
    rt: &HostRuntime,
    below: T,
    rule: Rule,
    p: u16,
) -> io::Result<RuleLayer<T>> {
    let mut layer = RuleLayer::new(below, rule);
    show_row(rt, layer.add(p))?;
    Ok(layer)
}

fn joined<T: Task + Drop>(rt: &HostRuntime, below: T, row: Join) -> io::Result<MacroLayer<T>> {
    let mut layer = MacroLayer::new(below);
    show_row(rt, layer.add(row))?;
    Ok(layer)
}

fn show_rule(
    rt: &HostRuntime,
    title: &str,
    rule: Rule,
    p: u16,
    plans: &[&[u16]],
) -> io::Result<()> {
    show_title(rt, title)?;
    let layer = ruled(rt, Bench, rule, p)?;
    // not by `show_over`: the verdict is that of the pad's own function
    for plan in plans {
        show_plan(rt, &layer, plan, judge_ruled(rule, p, plan))?;
    }
    Ok(())
}

pub fn show_rules(rt: &HostRuntime) -> io::Result<()> {
    let service: &[u16] = &[0, 1, 2, 3];
    show_rule(
        rt,
        "predecessor rule: only reset provides on for load-keys",
        RESET_FIRST,
        0,
        &[service, &[0, 4, 1, 2, 3]],
    )?;
    show_rule(
        rt,
        "successor rule: align provides aligned for seal only",
        ALIGN_FOR_SEAL,
        2,
        &[service, &[0, 1, 2, 3, 5]],
    )?;
    show_rule(
        rt,
        "the same, strict: at the end aligned is not as align left it",
        ALIGN_FOR_SEAL_STRICT,
        2,
        &[service],
    )
}

pub fn show_macros(rt: &HostRuntime) -> io::Result<()> {
    show_title(
        rt,
        "macros: load-keys then align as action 6; seal then load-keys",
    )?;
    let mut layer = joined(rt, Bench, PREPARE)?;
    show_row(rt, layer.add(RELOAD))?;
    let plan: &[u16] = &[0, 6, 3];
    show_plan(rt, &layer, plan, judge_joined(PREPARE, plan))
}

fn show_over<P: Task>(rt: &HostRuntime, task: &P, plans: &[&[u16]]) -> io::Result<()> {
    for plan in plans {
        show_plan(rt, task, plan, judge(task, plan))?;
    }
    Ok(())
}

pub fn show_piles(rt: &HostRuntime) -> io::Result<()> {
    show_title(rt, "the macro, over both rules")?;
    let first = ruled(rt, Bench, RESET_FIRST, 0)?;
    let second = ruled(rt, first, ALIGN_FOR_SEAL, 2)?;
    let top = joined(rt, second, PREPARE)?;
    show_over(rt, &top, &[&[0, 4, 6, 3], &[0, 6, 3], &[0, 4, 6, 3, 5]])?;

    show_title(rt, "both rules, over the macro")?;
    let bottom = joined(rt, Bench, PREPARE)?;
    let middle = ruled(rt, bottom, ALIGN_FOR_SEAL, 2)?;
    let upper = ruled(rt, middle, RESET_FIRST, 0)?;
    show_over(
        rt,
        &upper,
        &[&[0, 6, 3], &[0, 6, 3, 5], &[0, 4, 1, 2, 3, 5]],
    )
}
