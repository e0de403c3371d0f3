ghost use Rattle.std.specs.Prelude.{◌≡◌, ◌≤◌, true, length, is_ok};
ghost use Rattle.atoms.specs.Has.{has};
ghost use Rattle.planning.specs.Sets.{Under};
ghost use Rattle.planning.specs.Judgements.{Judgement};
ghost use Rattle.planning.specs.Verdicts.{lacks, stepped, on_ok};
ghost use Rattle.planning.specs.Piles.{Built, meaning};

use crate::task::Task;
use atoms::Atoms;
use planning::{Fault, Refusal};

// The most steps that a plan may have.
pub const MOST_STEPS: usize = 256;

// Refuses a state that lacks a needed atom, and names the lowest.
fn hold<P: Task>(
    task: &P,
    refusal: Refusal,
    place: usize,
    need: Atoms,
    state: Atoms,
) -> Result<(), Fault>
    ensures { Built (P.pile task.now) → Under (meaning (P.pile task.now)).atoms (has need) → result ≡ lacks (meaning (P.pile task.now)) refusal place (has need) (has state) }
{
    let missing = need.minus(state);
    match missing.lowest() {
        None => Ok(()),
        Some(atom) => Err(Fault {
            refusal,
            place,
            atom,
            missing: missing.count(),
            layer: task.first_height(atom),
        }),
    }
}

// The state after the action `a` as the step at `place`.
pub fn step<P: Task>(task: &P, place: usize, a: u16, state: Atoms) -> Result<Atoms, Fault>
    ensures near { is_ok result ≡ true → place ≤ 256 }
    ensures exact { Built (P.pile task.now) → on_ok has result ≡ stepped (meaning (P.pile task.now)) place a (has state) }
{
    if place > MOST_STEPS {
        return Err(Fault::at_place(Refusal::TooManySteps, place));
    }
    if a >= task.actions() {
        return Err(Fault::at_place(Refusal::UnknownAction, place));
    }
    let action = task.action(a);
    hold(task, Refusal::NotApplicable, place, action.needs, state)?;
    Ok(action.after(state))
}

// Whether a plan solves the task in at most 256 steps, and if not, what is the first that is wrong with it.
pub fn judge<P: Task>(task: &P, plan: &[u16]) -> Result<(), Fault>
    ensures short { is_ok result ≡ true → length plan.now ≤ 256 }
    ensures judgement { Built (P.pile task.now) → Judgement (P.pile task.now) plan.now result }
{
    let mut state = task.initial();
    for (i, a) in plan.iter().enumerate() {
        state = step(task, i + 1, *a, state)?;
    }
    hold(
        task,
        Refusal::GoalNotMet,
        plan.len() + 1,
        task.goal(),
        state,
    )
}
