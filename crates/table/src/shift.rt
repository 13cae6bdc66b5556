// Elements moved by one place.
ghost use Rattle.std.specs.Prelude.{◌≡◌, ◌-◌, ◌<◌, length, take};
ghost use Rattle.std.specs.List.{insert, remove};

// Writes x at a place, after the elements from there on moved up by one; the last one is lost.
pub(crate) fn insert_at<T: Copy>(rows: &mut [T], at: usize, x: T)
    requires { at < length rows.old }
    ensures { rows.new ≡ insert (take (length rows.old - 1) rows.old) at x }
{
    rows.copy_within(at..rows.len() - 1, at + 1);
    rows[at] = x;
}

// Takes out the element at a place, by moving those past it down by one; what the last place then holds is not settled.
pub(crate) fn close_gap<T: Copy>(rows: &mut [T], at: usize)
    requires { at < length rows.old }
    ensures front { take (length rows.old - 1) rows.new ≡ remove rows.old at }
    ensures len { length rows.new ≡ length rows.old }
{
    rows.copy_within(at + 1.., at);
}
