// A row of a macro layer: the action `first`, then `second`, as one action of a kind of its own.
#[derive(Clone, Copy, PartialEq, Eq, Debug, Default)]
pub struct Join {
    pub first: u16,
    pub second: u16,
    pub kind: u16,
}
