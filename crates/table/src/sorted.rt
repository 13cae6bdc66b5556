// A table that carries in its type that its records are in order, so that its calls are exact on every one.
ghost use Rattle.std.specs.Prelude.{◌≡◌, ◌+◌, [], length, drop};
ghost use Rattle.order.specs.Assoc.{lookup, first, next};
ghost use Rattle.table.specs.Held.{held, room, Good, Stored, Removed};

use crate::rows::{Table, TableFull};
use order::keys::Order;
use order::record::Record;

// A table whose records in use rise, and of which no more are in use than there are.
#[derive(Drop)]
pub struct SortedTable<'a, K: Order, V> {
    table: Table<'a, K, V>,
    ghost good: { Good K.Order.ranks table },
}

impl<'a, K: Order + Copy, V: Copy> SortedTable<'a, K, V> {
    // An empty table; nothing is written.
    pub fn open(records: &'a mut [Record<K, V>]) -> SortedTable<'a, K, V>
        ensures held { held result.table ≡ [] }
        ensures records { result.table.records.now ≡ records.old }
        ensures len { result.table.len ≡ 0 }
        ensures lender { result.table.records.ghost_name ≡ records.entry.ghost_name }
    {
        SortedTable {
            table: Table::open(records),
        }
    }

    // How many records are in use.
    pub fn len(&self) -> usize
        ensures { result ≡ length (held self.now.table) }
    {
        self.table.len()
    }

    // The value at a key.
    pub fn look(&self, key: &K) -> Option<V>
        ensures { result ≡ lookup K.Order.ranks key.now (held self.now.table) }
    {
        self.table.look(key)
    }

    // The least key.
    pub fn first(&self) -> Option<K>
        ensures { result ≡ first (held self.now.table) }
    {
        self.table.first()
    }

    // The least key greater than a key.
    pub fn after(&self, key: &K) -> Option<K>
        ensures { result ≡ next K.Order.ranks key.now (held self.now.table) }
    {
        self.table.after(key)
    }

    // Gives a key a value, unless the key is new and no record is free.
    pub fn put(&mut self, key: K, value: V) -> Result<(), TableFull>
        ensures room { room self.new.table ≡ room self.old.table }
        ensures lender { self.new.table.records.ghost_name ≡ self.old.table.records.ghost_name }
        ensures rest { drop (self.old.table.len + 1) self.new.table.records.now ≡ drop (self.old.table.len + 1) self.old.table.records.now }
        ensures unused { drop self.new.table.len self.new.table.records.now ≡ drop self.new.table.len self.old.table.records.now }
        ensures does { Stored K.Order.ranks key value self.old.table self.new.table result }
    {
        self.table.put(key, value)
    }

    // Takes a key out, if it is there.
    pub fn remove(&mut self, key: &K)
        ensures room { room self.new.table ≡ room self.old.table }
        ensures lender { self.new.table.records.ghost_name ≡ self.old.table.records.ghost_name }
        ensures rest { drop self.old.table.len self.new.table.records.now ≡ drop self.old.table.len self.old.table.records.now }
        ensures does { Removed K.Order.ranks key.now self.old.table self.new.table }
    {
        self.table.remove(key);
    }
}
