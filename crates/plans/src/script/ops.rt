ghost use Rattle.std.specs.Prelude.{◌≡◌, ℕ, ◌<◌, ◌≤◌, List, ◌∷◌, length, drop, IfSome, Decides, MatchOption, slice_index};
ghost use Rattle.atoms.specs.Has.{has};
ghost use Rattle.planning.specs.Piles.{Built, meaning};
ghost use Rattle.planning.specs.Sets.{◌⊆◌};
ghost use Rattle.planning.specs.Tasks.{Task as Meaning, Lawful};
ghost use Rattle.planning.specs.Trims.{left_out, strikable};
ghost use Rattle.tasks.specs.Answers.{Acts};
ghost use Rattle.tasks.specs.Regressed.{Wanted};
ghost use Rattle.plans.specs.Scripts.{Scripted, numbers};
ghost use Rattle.plans.specs.Steps.{steps_of};

use super::Step;
use crate::plan::Plan;
use atoms::Atoms;
use tasks::Action;
use tasks::task::Task;

// What is wanted before an action, where the rest behind it wants `later`.
fn before(action: Action, later: Option<Atoms>) -> Option<Atoms>
    ensures { (t : Meaning) (a : ℕ) (rest : List ℕ) → Lawful t → Acts t a action → Wanted t rest later → Wanted t (a ∷ rest) result }
{
    action.wanted_before(later?)
}

// Whether the state has what is wanted.
fn serves(state: Atoms, want: Option<Atoms>) -> bool
    ensures { Decides result (MatchOption want ⊥ (λ w. has w ⊆ has state)) }
{
    want.is_some_and(|want| want.is_subset(state))
}

// Writes the script of a plan: asks the task for the action of each step, once, from the last to the first.
pub fn write<P: Task>(task: &P, plan: &[u16], script: &mut [Step])
    requires { length script.old ≡ length plan.now }
    ensures plan { numbers script.new ≡ plan.now }
    ensures scripted { Built (P.pile task.now) → Scripted (meaning (P.pile task.now)) script.new }
{
    let mut want = Some(task.goal());
    for (i, a) in plan.iter().enumerate().rev() {
        let action = task.action(*a);
        script[i] = Step {
            number: *a,
            action,
            later: want,
        };
        want = before(action, want);
    }
}

// The index of the earliest step that the plan can do without.
pub fn strikable(start: Atoms, script: &[Step]) -> Option<usize>
    ensures inside { IfSome result (λ i. i < length (numbers script.now)) }
    ensures exact { (t : Meaning) → length script.now ≤ 256 → has start ≡ t.initial → Scripted t script.now → result ≡ strikable t (numbers script.now) }
{
    let mut state = start;
    for (i, step) in script.iter().enumerate() {
        if serves(state, step.later) {
            return Some(i);
        }
        if !step.action.is_applicable(state) {
            return None;
        }
        state = step.action.after(state);
    }
    None
}

// Leaves out the step at index `i`, and answers its number: those before it move up by one, and what is wanted behind each of them
// is reckoned anew. Those behind it stay as they are. The first place is free then.
pub fn leave_out(script: &mut [Step], i: usize) -> u16
    requires { i < length script.old }
    ensures number { result ≡ slice_index (numbers script.old) i }
    ensures plan { numbers (drop 1 script.new) ≡ left_out (numbers script.old) i }
    ensures scripted { (t : Meaning) → Scripted t script.old → Scripted t (drop 1 script.new) }
{
    let gone = script[i];
    let mut want = gone.later;
    for k in (0..i).rev() {
        let mut step = script[k];
        step.later = want;
        script[k + 1] = step;
        want = before(step.action, want);
    }
    gone.number
}

// The plan of a script.
pub fn plan(script: &[Step]) -> Plan
    ensures { length script.now ≤ 256 → steps_of result ≡ numbers script.now }
{
    let mut plan = Plan::empty();
    for step in script {
        plan.push(step.number);
    }
    plan
}
