// A call on an order that can change its plan.
#[derive(Clone, Copy, Debug)]
pub enum Call<'a> {
    Load(&'a [u16]),
    Drop(usize),
    Swap(usize),
    Fold(usize, u16),
    Unfold(usize),
    Trim,
}
