ghost use Rattle.std.specs.Prelude.{Some};
ghost use Rattle.bench.specs.Names.{name_text};

use atoms::Atoms;
use pad::Bench;
use pad::bench::{ACTIONS, ATOMS};
use planning::Fault;
use std::{fmt, io};
use tariffs::Cents;
use tasks::task::Task;
use tasks::{step, wants};

// What the bench calls an action or an atom; a macro, an unknown action and a mark have a number alone.
#[derive(Clone, Copy)]
enum Name {
    Action(u16),
    Atom(u16),
}

impl fmt::Display for Name {
    ghost output = { λ n. Some (name_text n) };

    fn fmt<W: fmt::Write>(&self, f: &mut fmt::Formatter<W>) -> fmt::Result {
        match *self {
            Name::Action(a) if a < ACTIONS => f.write_str(Bench::action_name(a)),
            Name::Action(a) => write!(f, "action-{a}"),
            Name::Atom(p) if p < ATOMS => f.write_str(Bench::atom_name(p)),
            Name::Atom(p) => write!(f, "mark-{p}"),
        }
    }
}

// The actions of a plan; of equal steps in a row one, and how many they are.
#[derive(Clone, Copy)]
struct Steps<'a>(&'a [u16]);

impl fmt::Display for Steps<'_> {
    fn fmt<W: fmt::Write>(&self, f: &mut fmt::Formatter<W>) -> fmt::Result {
        for run in self.0.chunk_by(|a, b| a == b) {
            let times = run.len();
            if times > 1 {
                write!(f, " {times} x")?;
            }
            write!(f, " {}", Name::Action(run[0]))?;
        }
        Ok(())
    }
}

// The atoms of a set, as far as they are below a number.
#[derive(Clone, Copy)]
struct Below(Atoms, u16);

impl fmt::Display for Below {
    fn fmt<W: fmt::Write>(&self, f: &mut fmt::Formatter<W>) -> fmt::Result {
        let Below(atoms, count) = *self;
        if atoms.is_empty() {
            return f.write_str(" nothing");
        }
        for p in (0..count).filter(|p| atoms.contains(*p)) {
            write!(f, " {}", Name::Atom(p))?;
        }
        Ok(())
    }
}

// What a plan, a row or a call gets.
#[derive(Clone, Copy)]
pub struct Answer(pub Result<Option<Cents>, Fault>);

impl fmt::Display for Answer {
    fn fmt<W: fmt::Write>(&self, f: &mut fmt::Formatter<W>) -> fmt::Result {
        match self.0 {
            Ok(None) => f.write_str("accepted"),
            Ok(Some(cents)) => write!(f, "{} cents", cents.value()),
            Err(fault) => write!(f, "{fault}"),
        }
    }
}

// The state after each step, as far as the steps can be taken.
fn show_states<P: Task>(rt: &HostRuntime, task: &P, plan: &[u16]) -> io::Result<()> {
    let count = task.atoms();
    let mut state = task.initial();
    println!(rt; "  start:{}", Below(state, count))?;
    let mut before = None;
    for (i, &a) in plan.iter().enumerate() {
        let place = i + 1;
        let Ok(next) = step(task, place, a, state) else {
            return Ok(());
        };
        if before != Some(a) || next != state {
            println!(rt; "  {place} {}:{}", Name::Action(a), Below(next, count))?;
        }
        before = Some(a);
        state = next;
    }
    Ok(())
}

// What the plan wants of the state that it starts in.
fn show_wants<P: Task>(rt: &HostRuntime, task: &P, plan: &[u16]) -> io::Result<()> {
    match wants(task, plan) {
        Some(atoms) => println!(rt; "  wants:{}", Below(atoms, task.atoms())),
        None => println!(rt; "  reaches the goal from no state"),
    }
}

pub fn show_title(rt: &HostRuntime, title: &str) -> io::Result<()> {
    println!(rt; "\n{title}")
}

// What came of a row added to a layer.
pub fn show_row(rt: &HostRuntime, answer: Result<(), Fault>) -> io::Result<()> {
    println!(rt; "  row: {}", Answer(answer.map(|()| None)))
}

pub fn show_plan<P: Task>(
    rt: &HostRuntime,
    task: &P,
    plan: &[u16],
    verdict: Result<(), Fault>,
) -> io::Result<()> {
    println!(rt; "  plan:{}", Steps(plan))?;
    show_wants(rt, task, plan)?;
    show_states(rt, task, plan)?;
    println!(rt; "  verdict: {}", Answer(verdict.map(|()| None)))
}
