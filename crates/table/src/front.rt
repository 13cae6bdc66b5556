// The first rows of a slice.
ghost use Rattle.std.specs.Prelude.{◌≡◌, ◌≤◌, length, take};

// The first `len` rows, or all of them where there are fewer; an index range would ask for no more than there are.
pub fn front<T>(rows: &[T], len: usize) -> &[T]
    ensures is { result.now ≡ take len rows.now }
    ensures short { length result.now ≤ len }
    ensures within { length result.now ≤ length rows.now }
{
    &rows[..len.min(rows.len())]
}
