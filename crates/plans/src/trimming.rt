ghost use Rattle.std.specs.Prelude.{◌≡◌, ◌≤◌, length};
ghost use Rattle.planning.specs.Piles.{Built, meaning};
ghost use Rattle.planning.specs.Trims.{trimmed};
ghost use Rattle.plans.specs.Steps.{steps_of};

use crate::plan::Plan;
use crate::script::{Step, ops as script};
use tasks::task::Task;
use tasks::verdict::MOST_STEPS;

// How many steps are few.
const FEW: usize = 16;

// A plan trimmed, and the actions that left it.
#[derive(Clone, Copy)]
pub struct Trimmed {
    pub plan: Plan,
    pub gone: Plan,
}

// Leaves out the earliest step that can be, again and again, until none can.
pub fn trim<P: Task>(task: &P, plan: &Plan) -> Trimmed
    ensures plan { Built (P.pile task.now) → steps_of result.plan ≡ (trimmed (meaning (P.pile task.now)) (steps_of plan.now)).plan }
    ensures gone { Built (P.pile task.now) → steps_of result.gone ≡ (trimmed (meaning (P.pile task.now)) (steps_of plan.now)).gone }
{
    if plan.as_slice().len() <= FEW {
        trim_within::<P, FEW>(task, plan)
    } else {
        trim_within::<P, MOST_STEPS>(task, plan)
    }
}

// A call pays for all the room that it has, so a plan of few steps gets little.
fn trim_within<P: Task, const ROOM: usize>(task: &P, plan: &Plan) -> Trimmed
    requires fits { length (steps_of plan.now) ≤ ROOM }
    requires small { ROOM ≤ 256 }
    ensures plan { Built (P.pile task.now) → steps_of result.plan ≡ (trimmed (meaning (P.pile task.now)) (steps_of plan.now)).plan }
    ensures gone { Built (P.pile task.now) → steps_of result.gone ≡ (trimmed (meaning (P.pile task.now)) (steps_of plan.now)).gone }
{
    let mut places = [Step::default(); ROOM];
    let room = &mut places[..];
    trim_in(task, plan, &mut room[..plan.as_slice().len()])
}

// Each round leaves a place free at the front of the room.
fn trim_in<P: Task>(task: &P, plan: &Plan, room: &mut [Step]) -> Trimmed
    requires { length room.old ≡ length (steps_of plan.now) }
    ensures plan { Built (P.pile task.now) → steps_of result.plan ≡ (trimmed (meaning (P.pile task.now)) (steps_of plan.now)).plan }
    ensures gone { Built (P.pile task.now) → steps_of result.gone ≡ (trimmed (meaning (P.pile task.now)) (steps_of plan.now)).gone }
{
    script::write(task, plan.as_slice(), room);
    let start = task.initial();
    let mut gone = Plan::empty();
    let mut first = 0;
    while let Some(i) = script::strikable(start, &room[first..]) {
        gone.push(script::leave_out(&mut room[first..], i));
        first += 1;
    }
    Trimmed {
        plan: script::plan(&room[first..]),
        gone,
    }
}
