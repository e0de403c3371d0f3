// Judges the worked plans of the bench, bare and under layers, and prints all that it did: each plan by its actions' names, what it
// wants of the start, the state after every step, and the verdict.
#![tactic(auto)]

mod bare;
mod layered;
mod orders;
mod show;

use std::io;

fn main(rt: HostRuntime) -> io::Result<()> {
    println!(rt; "The bench: 5 atoms, 6 actions, the goal is sealed.")?;
    println!(rt; "Of steps that repeat the one before them only the first is listed.")?;
    println!(rt;
        "A mark of a rule layer is listed by its atom's number, a macro by its action's."
    )?;
    bare::show_plans(&rt)?;
    layered::show_rules(&rt)?;
    layered::show_macros(&rt)?;
    layered::show_piles(&rt)?;
    orders::show_orders(&rt)
}
