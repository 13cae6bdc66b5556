// The table, and its questions and changes.
ghost use Rattle.std.specs.Prelude.{◌≡◌, ◌+◌, ◌≤◌, [], length, drop};
ghost use Rattle.order.specs.Assoc.{lookup, first, next};
ghost use Rattle.table.specs.Held.{held, room, Good, Stored, Removed};

use crate::front::front;
use crate::search::{past, seek};
use crate::shift::{close_gap, insert_at};
use order::keys::Order;
use order::record::Record;

// Records that the caller lends; the first `len` are in use, in rising order of their keys. The library asks for no memory
// of its own, so that the records are a slice with a length, and no growing list. A table may be made of records that are
// filled already: its calls are safe whatever these are, and what they answer of keys holds where the records in use rise.
#[derive(Drop)]
pub struct Table<'a, K, V> {
    pub records: &'a mut [Record<K, V>],
    pub len: usize,
}

// A key is new and no record is free.
#[derive(Clone, Copy, Debug, PartialEq, Eq)]
pub struct TableFull;

impl<'a, K: Order + Copy, V: Copy> Table<'a, K, V> {
    // An empty table; nothing is written.
    pub fn open(records: &'a mut [Record<K, V>]) -> Table<'a, K, V>
        ensures held { held result ≡ [] }
        ensures good { Good K.Order.ranks result }
        ensures records { result.records.now ≡ records.old }
        ensures len { result.len ≡ 0 }
        ensures lender { result.records.ghost_name ≡ records.entry.ghost_name }
    {
        Table { records, len: 0 }
    }

    // The records in use; all, where `len` is past them.
    fn rows(&self) -> &[Record<K, V>]
        ensures is { result.now ≡ held self.now }
        ensures short { length result.now ≤ self.now.len }
        ensures within { length result.now ≤ room self.now }
    {
        front(self.records, self.len)
    }

    // How many records are in use.
    pub fn len(&self) -> usize
        ensures { result ≡ length (held self.now) }
    {
        self.rows().len()
    }

    // The value at a key.
    pub fn look(&self, key: &K) -> Option<V>
        ensures { Good K.Order.ranks self.now → result ≡ lookup K.Order.ranks key.now (held self.now) }
    {
        let rows = self.rows();
        match seek(rows, key) {
            Ok(at) => Some(rows[at].value),
            Err(_) => None,
        }
    }

    // The least key.
    pub fn first(&self) -> Option<K>
        ensures { result ≡ first (held self.now) }
    {
        Some(self.rows().first()?.key)
    }

    // The least key greater than a key.
    pub fn after(&self, key: &K) -> Option<K>
        ensures { Good K.Order.ranks self.now → result ≡ next K.Order.ranks key.now (held self.now) }
    {
        let rows = self.rows();
        Some(rows.get(past(rows, key))?.key)
    }

    // Gives a key a value, unless the key is new and no record is free.
    pub fn put(&mut self, key: K, value: V) -> Result<(), TableFull>
        ensures room { room self.new ≡ room self.old }
        ensures lender { self.new.records.ghost_name ≡ self.old.records.ghost_name }
        ensures rest { drop (self.old.len + 1) self.new.records.now ≡ drop (self.old.len + 1) self.old.records.now }
        ensures unused { drop self.new.len self.new.records.now ≡ drop self.new.len self.old.records.now }
        ensures does { Good K.Order.ranks self.old → Stored K.Order.ranks key value self.old self.new result }
    {
        match seek(self.rows(), &key) {
            Ok(at) => {
                self.records[at] = Record { key, value };
                Ok(())
            }
            Err(at) if self.len < self.records.len() => {
                insert_at(&mut self.records[..self.len + 1], at, Record { key, value });
                self.len += 1;
                Ok(())
            }
            Err(_) => Err(TableFull),
        }
    }

    // Takes a key out, if it is there.
    pub fn remove(&mut self, key: &K)
        ensures room { room self.new ≡ room self.old }
        ensures lender { self.new.records.ghost_name ≡ self.old.records.ghost_name }
        ensures rest { drop self.old.len self.new.records.now ≡ drop self.old.len self.old.records.now }
        ensures does { Good K.Order.ranks self.old → Removed K.Order.ranks key.now self.old self.new }
    {
        if let Ok(at) = seek(self.rows(), key) {
            self.len = self.len.min(self.records.len());
            close_gap(&mut self.records[..self.len], at);
            self.len -= 1;
        }
    }
}
