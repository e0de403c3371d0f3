ghost use Rattle.std.specs.Prelude.{◌≡◌, ◌+◌, ◌<◌, ◌≤◌, true, [], ◌∷◌, ◌++◌, length, is_ok};
ghost use Rattle.atoms.specs.Has.{has};
ghost use Rattle.planning.specs.Sets.{Under};
ghost use Rattle.planning.specs.Marks.{marked};
ghost use Rattle.planning.specs.Piles.{Built, ruled, meaning, raised};
ghost use Rattle.planning.specs.Rows.{RuleRows, above, rule_row};
ghost use Rattle.planning.specs.Verdicts.{on_ok};
ghost use Rattle.planning.proofs.Props.{kept_prop};
ghost use Rattle.layers.specs.Adding.{Added};

use crate::height::one_higher;
use crate::marks::{all_if, marks_by, marks_end, marks_start};
use arrayvec::ArrayVec;
use atoms::Atoms;
use planning::{Fault, Refusal, Rule};
use tasks::task::{BuiltTask, Task};
use tasks::{Action, BaseSteps};

const MOST_ATOMS: usize = 32;

const MOST_TASK_ATOMS: usize = 320;

// A rule over the task below, for the atoms that it lists.
#[derive(Drop)]
pub struct RuleLayer<T: Task> {
    below: T,
    // the number of the first mark: how many atoms there are below
    from: u16,
    rule: Rule,
    listed: ArrayVec<u16, MOST_ATOMS>,
    ghost built: { Built (T.pile below) → Built (ruled (T.pile below) from rule listed.items) } by { kept_prop (T.pile below) (ruled (T.pile below) from rule listed.items) },
}

impl<T: Task> Task for RuleLayer<T> {
    ghost pile = { λ s. ruled (T.Task.pile s.below) s.from s.rule s.listed.items };

    // A length of at most 32 is shown to fit; `try_from` would add a case that never comes. So does an index below.
    fn atoms(&self) -> u16 {
        self.from.saturating_add(self.listed.len() as u16)
    }

    fn actions(&self) -> u16 {
        self.below.actions()
    }

    fn initial(&self) -> Atoms {
        self.mark(self.below.initial(), all_if(marks_start(self.rule)))
    }

    fn goal(&self) -> Atoms {
        self.mark(self.below.goal(), all_if(marks_end(self.rule)))
    }

    fn action(&self, a: u16) -> Action {
        let action = self.below.action(a);
        let marks = marks_by(self.rule, action);
        Action {
            needs: self.mark(action.needs, marks.needs),
            deletes: self.mark(action.deletes, marks.deletes),
            adds: self.mark(action.adds, marks.adds),
            kind: action.kind,
        }
    }

    fn base_steps(&self, a: u16) -> BaseSteps {
        self.below.base_steps(a)
    }

    fn parts(&self, a: u16) -> Option<(u16, u16)> {
        self.below.parts(a)
    }

    fn height(&self) -> u8 {
        one_higher(self.below.height())
    }

    fn first_height(&self, p: u16) -> u8 {
        if p < self.from {
            self.below.first_height(p)
        } else if p < self.atoms() {
            self.height()
        } else {
            0
        }
    }
}

impl<T: BuiltTask> BuiltTask for RuleLayer<T> {
    ghost built = { λ s. s.built (T.BuiltTask.built s.below) };
}

impl<T: Task> RuleLayer<T> {
    // Lists no atom yet.
    pub fn new(below: T, rule: Rule) -> RuleLayer<T>
        ensures below { result.below ≡ below }
        ensures pile { ruled (T.Task.pile result.below) result.from result.rule result.listed.items ≡ ruled (T.Task.pile below) result.from rule [] }
        ensures empty { Built (T.Task.pile below) → meaning (ruled (T.Task.pile result.below) result.from result.rule result.listed.items) ≡ raised (meaning (T.Task.pile below)) }
    {
        let from = below.atoms();
        let listed = ArrayVec::new();
        RuleLayer {
            below,
            from,
            rule,
            listed,
        }
    }

    // The set with the marks of those listed atoms that are in `marks`.
    fn mark(&self, set: Atoms, marks: Atoms) -> Atoms
        ensures { self.now.from + length self.now.listed.items ≤ 320 → Under self.now.from (has set) → has result ≡ marked self.now.from self.now.listed.items (has set) (has marks) }
    {
        let mut marked = set;
        for (k, p) in self.listed.as_slice().iter().enumerate() {
            if marks.contains(*p) {
                marked = marked.insert(self.from.saturating_add(k as u16));
            }
        }
        marked
    }

    // Whether `p` is above the last listed atom.
    fn rises_to(&self, p: u16) -> bool
        ensures { result ≡ above self.now.listed.items p }
    {
        self.listed.as_slice().last().is_none_or(|last| *last < p)
    }

    // Why `p` cannot be listed behind the others.
    fn check(&self, p: u16) -> Result<(), Fault>
        ensures room { is_ok result ≡ true → length self.now.listed.items < 32 }
        ensures exact { Built (T.Task.pile self.now.below) → on_ok (λ _. self.now.listed.items ++ p ∷ []) result ≡ rule_row (meaning (T.Task.pile self.now.below)) self.now.listed.items p }
    {
        let n = self.below.atoms();
        let len = self.listed.len();
        if p >= n || !self.rises_to(p) {
            return Err(Fault::at_place(Refusal::BadAtom, 0));
        }
        if len >= MOST_ATOMS {
            return Err(Fault::at_place(Refusal::TableFull, 0));
        }
        if usize::from(n) + len >= MOST_TASK_ATOMS {
            return Err(Fault::at_place(Refusal::OverLimit, 0));
        }
        Ok(())
    }

    // Lists `p` behind the others.
    pub fn add(&mut self, p: u16) -> Result<(), Fault>
        ensures below { self.new.below ≡ self.old.below }
        ensures from { self.new.from ≡ self.old.from }
        ensures rule { self.new.rule ≡ self.old.rule }
        ensures added { Added (Built (T.Task.pile self.old.below)) (RuleRows (meaning (T.Task.pile self.old.below))) (rule_row (meaning (T.Task.pile self.old.below)) self.old.listed.items p) self.old.listed.items self.new.listed.items p result }
    {
        self.check(p)?;
        self.listed.push(p);
        Ok(())
    }
}
