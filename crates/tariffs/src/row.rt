ghost use Rattle.std.specs.Prelude.{◌≡◌, slice_index_or};

// What a row has for an action; `nought` beyond it.
pub fn row_at<T: Copy>(row: &[T], a: u16, nought: T) -> T
    ensures { result ≡ slice_index_or row.now a nought }
{
    row.get(usize::from(a)).copied().unwrap_or(nought)
}
