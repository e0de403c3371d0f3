ghost use Rattle.std.specs.Prelude.{◌≡◌, ◌+◌, ◌≤◌, [], ◌∷◌, ◌++◌, length, if◌then◌else◌, nat_lt};
ghost use Rattle.tasks.specs.Answers.{listed};

use super::BaseSteps;

impl BaseSteps {
    pub fn none() -> BaseSteps
        ensures { listed result ≡ [] }
    {
        BaseSteps {
            len: 0,
            steps: [0; 8],
        }
    }

    pub fn one(a: u16) -> BaseSteps
        ensures { listed result ≡ a ∷ [] }
    {
        BaseSteps {
            len: 1,
            steps: [a, 0, 0, 0, 0, 0, 0, 0],
        }
    }

    // Of a bottom with so many actions: each is its own only base step.
    pub fn alone(a: u16, actions: u16) -> BaseSteps
        ensures { listed result ≡ (if nat_lt a actions then a ∷ [] else []) }
    {
        if a < actions {
            BaseSteps::one(a)
        } else {
            BaseSteps::none()
        }
    }

    pub fn len(&self) -> usize
        ensures count { result ≡ length (listed self.now) }
        ensures few { result ≤ 8 }
    {
        self.len
    }

    // These steps, then the other's, if they are 8 at most.
    pub fn then(self, other: BaseSteps) -> BaseSteps
        ensures { length (listed self) + length (listed other) ≤ 8 → listed result ≡ listed self ++ listed other }
    {
        let len = self.len + other.len;
        if len > 8 {
            return self;
        }
        let mut steps = self.steps;
        steps[self.len..len].copy_from_slice(other.as_slice());
        BaseSteps { len, steps }
    }

    pub fn as_slice(&self) -> &[u16]
        ensures { result.now ≡ listed self.now }
    {
        &self.steps[..self.len]
    }
}
