// Records that hold nodes with the labels of their classes.
ghost use Rattle.std.specs.Prelude.{◌≡◌, ◌<◌, length, slice_index_or};
ghost use Rattle.search.specs.Classes.{relabelled, renamed, lessened, is_own, class_count};

use order::keys::Order;
use order::record::Record;
use std::cmp::Ordering;

// The record with its label b where it is a.
fn relabel<N: Order + Copy>(row: Record<N, N>, a: N, b: N) -> Record<N, N>
    ensures { result ≡ relabelled N.Order.ranks a b row }
{
    if row.value.compare(&a).is_eq() {
        Record {
            key: row.key,
            value: b,
        }
    } else {
        row
    }
}

// The label a becomes b.
fn rename<N: Order + Copy>(rows: &mut [Record<N, N>], a: N, b: N)
    ensures { rows.new ≡ renamed N.Order.ranks a b rows.old }
{
    for row in rows.iter_mut() {
        *row = relabel(*row, a, b);
    }
}

// Makes one class of those of the nodes at two places.
pub(crate) fn unite<N: Order + Copy>(rows: &mut [Record<N, N>], i: usize, j: usize)
    requires first { i < length rows.old }
    requires second { j < length rows.old }
    ensures { (d : Record N N) → rows.new ≡ lessened N.Order.ranks (slice_index_or rows.old i d).value (slice_index_or rows.old j d).value rows.old }
{
    let a = rows[i].value;
    let b = rows[j].value;
    match a.compare(&b) {
        Ordering::Less => rename(rows, b, a),
        Ordering::Equal => {}
        Ordering::Greater => rename(rows, a, b),
    }
}

fn is_own<N: Order>(row: &Record<N, N>) -> bool
    ensures { result ≡ is_own N.Order.ranks row.now }
{
    row.key.compare(&row.value).is_eq()
}

// How many nodes are labelled with themselves.
pub(crate) fn count_own<N: Order + Copy>(rows: &[Record<N, N>]) -> usize
    ensures { result ≡ class_count N.Order.ranks rows.now }
{
    rows.iter().filter(|row| is_own(row)).count()
}
