ghost use Rattle.std.specs.Prelude.{◌≡◌, ℕ, Bool, nat_lt};
ghost use Rattle.atoms.specs.Has.{has};
ghost use Rattle.planning.specs.Marks.{when, marks_of};
ghost use Rattle.planning.specs.Tasks.{Task};
ghost use Rattle.tasks.specs.Answers.{Acts};
ghost use Rattle.layers.specs.Marking.{MarksOf};

use atoms::Atoms;
use planning::{Rule, RuleSort};
use tasks::Action;

// Of which atoms an action needs, deletes and adds the mark.
#[derive(Clone, Copy)]
pub struct Marks {
    pub needs: Atoms,
    pub deletes: Atoms,
    pub adds: Atoms,
}

// The set, if `yes`.
fn when(yes: bool, set: Atoms) -> Atoms
    ensures { has result ≡ when yes (has set) }
{
    if yes { set } else { Atoms::empty() }
}

// All atoms, if `yes`.
pub fn all_if(yes: bool) -> Atoms
    ensures { has result ≡ when yes (λ p. nat_lt p 320) }
{
    when(yes, Atoms::all())
}

// Whether all marks are initial, or none.
pub fn marks_start(rule: Rule) -> bool
    ensures { (t : Task) → (marks_of t rule).initial ≡ (λ p. result) }
{
    match rule.sort {
        RuleSort::Successor => true,
        RuleSort::Predecessor => !rule.strict,
    }
}

// Whether all marks are in the goal, or none.
pub fn marks_end(rule: Rule) -> bool
    ensures { (t : Task) → (marks_of t rule).goal ≡ (λ p. result) }
{
    match rule.sort {
        RuleSort::Successor => rule.strict,
        RuleSort::Predecessor => false,
    }
}

pub fn marks_by(rule: Rule, action: Action) -> Marks
    ensures { (t : Task) (a : ℕ) → Acts t a action → MarksOf (marks_of t rule) a result }
{
    let first = action.kind == rule.first;
    let second = action.kind == rule.second;
    match rule.sort {
        RuleSort::Successor => Marks {
            needs: when(!second, action.needs),
            deletes: when(first, action.adds),
            adds: when(!first, action.adds).union(action.deletes.minus(action.adds)),
        },
        RuleSort::Predecessor => Marks {
            needs: when(second, action.needs),
            deletes: when(!first, action.adds),
            adds: when(first, action.adds),
        },
    }
}
