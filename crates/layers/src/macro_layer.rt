ghost use Rattle.std.specs.Prelude.{◌≡◌, ◌-◌, ◌<◌, true, [], ◌∷◌, ◌++◌, length, is_ok, slice_get};
ghost use Rattle.planning.specs.Piles.{Built, macros, meaning, raised};
ghost use Rattle.planning.specs.Rows.{MacroRows, macro_room, macro_row};
ghost use Rattle.planning.specs.Verdicts.{on_ok};
ghost use Rattle.planning.proofs.Props.{kept_prop};
ghost use Rattle.layers.specs.Adding.{Added};

use crate::height::one_higher;
use crate::joining::{clash, join_actions};
use arrayvec::ArrayVec;
use atoms::Atoms;
use planning::{Fault, Join, Refusal};
use tasks::action::NO_KIND;
use tasks::task::{BuiltTask, Task};
use tasks::{Action, BaseSteps};

const MOST_MACROS: usize = 16;

const MOST_ACTIONS: usize = 288;

const MOST_BASE_STEPS: usize = 8;

// Macros over the task below: each row joins two of its actions.
#[derive(Drop)]
pub struct MacroLayer<T: Task> {
    below: T,
    // the number of the first macro: how many actions there are below
    from: u16,
    rows: ArrayVec<Join, MOST_MACROS>,
    ghost built: { Built (T.pile below) → Built (macros (T.pile below) from rows.items) } by { kept_prop (T.pile below) (macros (T.pile below) from rows.items) },
}

impl<T: Task> Task for MacroLayer<T> {
    ghost pile = { λ s. macros (T.Task.pile s.below) s.from s.rows.items };

    fn atoms(&self) -> u16 {
        self.below.atoms()
    }

    // A length of at most 16 is shown to fit; `try_from` would add a case that never comes.
    fn actions(&self) -> u16 {
        self.from.saturating_add(self.rows.len() as u16)
    }

    fn initial(&self) -> Atoms {
        self.below.initial()
    }

    fn goal(&self) -> Atoms {
        self.below.goal()
    }

    fn action(&self, a: u16) -> Action {
        if a < self.from {
            return self.below.action(a);
        }
        match self.row(a) {
            Some(row) => join_actions(
                self.below.action(row.first),
                self.below.action(row.second),
                row.kind,
            ),
            None => Action::unknown(),
        }
    }

    fn base_steps(&self, a: u16) -> BaseSteps {
        if a < self.from {
            return self.below.base_steps(a);
        }
        match self.row(a) {
            Some(row) => self
                .below
                .base_steps(row.first)
                .then(self.below.base_steps(row.second)),
            None => BaseSteps::none(),
        }
    }

    fn parts(&self, a: u16) -> Option<(u16, u16)> {
        if a < self.from {
            return self.below.parts(a);
        }
        self.row(a).map(|row| (row.first, row.second))
    }

    fn height(&self) -> u8 {
        one_higher(self.below.height())
    }

    fn first_height(&self, p: u16) -> u8 {
        self.below.first_height(p)
    }
}

impl<T: BuiltTask> BuiltTask for MacroLayer<T> {
    ghost built = { λ s. s.built (T.BuiltTask.built s.below) };
}

impl<T: Task> MacroLayer<T> {
    // Has no row yet.
    pub fn new(below: T) -> MacroLayer<T>
        ensures below { result.below ≡ below }
        ensures pile { macros (T.Task.pile result.below) result.from result.rows.items ≡ macros (T.Task.pile below) result.from [] }
        ensures empty { Built (T.Task.pile below) → meaning (macros (T.Task.pile result.below) result.from result.rows.items) ≡ raised (meaning (T.Task.pile below)) }
    {
        let from = below.actions();
        let rows = ArrayVec::new();
        MacroLayer { below, from, rows }
    }

    // The row of a macro: the first one's for any lower number.
    fn row(&self, a: u16) -> Option<Join>
        ensures { result ≡ slice_get self.now.rows.items (a - self.now.from) }
    {
        let k = a.saturating_sub(self.from);
        self.rows.as_slice().get(usize::from(k)).copied()
    }

    // Why the row cannot stand behind the others.
    fn check(&self, row: Join) -> Result<(), Fault>
        ensures room { is_ok result ≡ true → length self.now.rows.items < 16 }
        ensures exact { Built (T.Task.pile self.now.below) → on_ok (λ _. self.now.rows.items ++ row ∷ []) result ≡ macro_row (meaning (T.Task.pile self.now.below)) self.now.rows.items row }
    {
        let m = self.below.actions();
        if row.first >= m {
            return Err(Fault::at_place(Refusal::UnknownAction, 1));
        }
        if row.second >= m {
            return Err(Fault::at_place(Refusal::UnknownAction, 2));
        }
        if row.kind >= NO_KIND {
            return Err(Fault::at_place(Refusal::BadKindOrName, 0));
        }
        let atoms = clash(self.below.action(row.first), self.below.action(row.second));
        if let Some(atom) = atoms.lowest() {
            return Err(Fault {
                atom,
                layer: self.below.first_height(atom),
                ..Fault::at_place(Refusal::NotJoinable, 0)
            });
        }
        self.check_room(row)
    }

    // Why there is no room for the row.
    fn check_room(&self, row: Join) -> Result<(), Fault>
        ensures room { is_ok result ≡ true → length self.now.rows.items < 16 }
        ensures exact { Built (T.Task.pile self.now.below) → on_ok (λ _. self.now.rows.items ++ row ∷ []) result ≡ macro_room (meaning (T.Task.pile self.now.below)) self.now.rows.items row }
    {
        let len = self.rows.len();
        if len >= MOST_MACROS {
            return Err(Fault::at_place(Refusal::TableFull, 0));
        }
        let steps = self.below.base_steps(row.first).len()
            + self.below.base_steps(row.second).len();
        if usize::from(self.below.actions()) + len >= MOST_ACTIONS || steps > MOST_BASE_STEPS {
            return Err(Fault::at_place(Refusal::OverLimit, 0));
        }
        Ok(())
    }

    // Joins two actions of the task below, behind the other rows.
    pub fn add(&mut self, row: Join) -> Result<(), Fault>
        ensures below { self.new.below ≡ self.old.below }
        ensures from { self.new.from ≡ self.old.from }
        ensures added { Added (Built (T.Task.pile self.old.below)) (MacroRows (meaning (T.Task.pile self.old.below))) (macro_row (meaning (T.Task.pile self.old.below)) self.old.rows.items row) self.old.rows.items self.new.rows.items row result }
    {
        self.check(row)?;
        self.rows.push(row);
        Ok(())
    }
}
