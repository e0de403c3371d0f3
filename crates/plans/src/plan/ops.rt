ghost use Rattle.std.specs.Prelude.{◌≡◌, ◌+◌, ◌<◌, ◌≤◌, [], ◌∷◌, ◌++◌, length, MatchOption};
ghost use Rattle.planning.specs.Edits.{splice};
ghost use Rattle.planning.specs.Trims.{left_out};
ghost use Rattle.plans.specs.Steps.{steps_of};

use super::Plan;
use tasks::verdict::MOST_STEPS;

impl Plan {
    pub fn empty() -> Plan
        ensures { steps_of result ≡ [] }
    {
        Plan {
            len: 0,
            steps: [0; 256],
        }
    }

    pub fn as_slice(&self) -> &[u16]
        ensures value { result.now ≡ steps_of self.now }
        ensures few { length result.now ≤ 256 }
    {
        &self.steps[..self.len]
    }

    // The steps with `part` behind them; none if that is too long.
    pub fn then(self, part: &[u16]) -> Option<Plan>
        ensures { MatchOption result (256 < length (steps_of self ++ part.now)) (λ p. steps_of p ≡ steps_of self ++ part.now) }
    {
        if part.len() > MOST_STEPS - self.len {
            return None;
        }
        let len = self.len + part.len();
        let mut steps = self.steps;
        steps[self.len..len].copy_from_slice(part);
        Some(Plan { len, steps })
    }

    // Puts `a` behind the steps, if there is room.
    pub fn push(&mut self, a: u16)
        ensures { length (steps_of self.old) < 256 → steps_of self.new ≡ steps_of self.old ++ a ∷ [] }
    {
        if self.len < MOST_STEPS {
            self.steps[self.len] = a;
            self.len += 1;
        }
    }

    // The plan with `part` in place of the `n` steps from index `i` on; none if that is too long.
    pub fn splice(&self, i: usize, n: usize, part: &[u16]) -> Option<Plan>
        ensures { i + n ≤ length (steps_of self.now) → MatchOption result (256 < length (splice (steps_of self.now) i n part.now)) (λ p. steps_of p ≡ splice (steps_of self.now) i n part.now) }
    {
        let steps = self.as_slice();
        let front = steps.get(..i)?;
        let rest = steps.get(i..)?.get(n..)?;
        Plan::empty().then(front)?.then(part)?.then(rest)
    }

    // The plan without the step at index `i`.
    pub fn without(&self, i: usize) -> Plan
        ensures { i < length (steps_of self.now) → steps_of result ≡ left_out (steps_of self.now) i }
    {
        self.splice(i, 1, &[]).unwrap_or(*self)
    }
}
