// The search for a key among records in rising order.
ghost use Rattle.std.specs.Prelude.{◌≡◌, true, drop};
ghost use Rattle.order.specs.Assoc.{rising, later};
ghost use Rattle.table.specs.Places.{Sought};

use order::keys::Order;
use order::record::Record;

// The place of a key, or as an error the place where it would stand.
pub(crate) fn seek<K: Order, V>(rows: &[Record<K, V>], key: &K) -> Result<usize, usize>
    ensures { Sought K.Order.ranks key.now rows.now result }
{
    rows.binary_search_by(|row| row.key.compare(key))
}

// The place of the first row with a greater key.
pub(crate) fn past<K: Order, V>(rows: &[Record<K, V>], key: &K) -> usize
    ensures { rising K.Order.ranks rows.now ≡ true → later K.Order.ranks key.now rows.now ≡ drop result rows.now }
{
    match seek(rows, key) {
        Ok(at) => at + 1,
        Err(at) => at,
    }
}
