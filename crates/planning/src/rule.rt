// Which of two actions a rule binds: the one that uses what an action of the first kind achieved, or the one that achieved what an
// action of the second kind uses.
#[derive(Clone, Copy, PartialEq, Eq, Debug)]
pub enum RuleSort {
    Successor,
    Predecessor,
}

// A rule of a layer over the kinds of actions.
#[derive(Clone, Copy, PartialEq, Eq, Debug)]
pub struct Rule {
    pub sort: RuleSort,
    pub first: u16,
    pub second: u16,
    pub strict: bool,
}
