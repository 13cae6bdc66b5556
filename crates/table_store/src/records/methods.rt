// Opening a table store, and its questions and changes.
ghost use Rattle.std.specs.Prelude.{◌≡◌, true, [], length, drop, is_err};
ghost use Rattle.simplex.specs.Simplexes.{vertices};
ghost use Rattle.store.specs.Puts.{put_answer, put_next};
ghost use Rattle.table_store.specs.Limits.{vertex_range};
ghost use Rattle.table_store.specs.Stores.{contents, contents_stored, limit_over};

use crate::records::TableStore;
use order::record::Record;
use simplex::simplex::Simplex;
use store::meaning::Store;
use store::refusal::StoreRefusal;
use table::sorted::SortedTable;

// Vertices are below this.
const RANGE: u16 = 4096;

// No more records are used.
const MOST_RECORDS: usize = 20000;

impl<'a> TableStore<'a> {
    // An empty store; nothing is written.
    pub fn open(records: &'a mut [Record<Simplex, u8>]) -> TableStore<'a>
        ensures contents { contents result ≡ record { model = []; limit = limit_over (length records.old); range = vertex_range } }
        ensures records { result.table.table.records.now ≡ records.old }
        ensures lender { result.table.table.records.ghost_name ≡ records.entry.ghost_name }
    {
        let limit = records.len().min(MOST_RECORDS);
        TableStore {
            table: SortedTable::open(records),
            limit,
        }
    }
}

impl<'a> Store for TableStore<'a> {
    ghost contents = { contents };

    ghost stored = { contents_stored };

    fn look(&self, s: &Simplex) -> u8 {
        self.table.look(s).unwrap_or(0)
    }

    fn after(&self, s: Option<Simplex>) -> Option<Simplex> {
        match s {
            Some(s) => self.table.after(&s),
            None => self.table.first(),
        }
    }

    fn held(&self) -> usize {
        self.table.len()
    }

    fn limit(&self) -> usize {
        self.limit
    }

    fn range(&self) -> u16 {
        RANGE
    }

    fn put(&mut self, s: Simplex, mask: u8) -> Result<(), StoreRefusal>
        ensures value { result ≡ put_answer (contents self.old) (vertices s) mask }
        ensures after { contents self.new ≡ put_next (contents self.old) (vertices s) mask }
        ensures lender { self.new.table.table.records.ghost_name ≡ self.old.table.table.records.ghost_name }
        ensures refused { is_err result ≡ true → self.new.table.table.records.now ≡ self.old.table.table.records.now }
        ensures surplus { drop self.old.limit self.new.table.table.records.now ≡ drop self.old.limit self.old.table.table.records.now }
    {
        // The grid store asks the same in the same order; one function over every store would call back into this block, and
        // such a cycle gets no proof.
        if mask == 0 {
            self.table.remove(&s);
            return Ok(());
        }
        if !s.within(RANGE) {
            return Err(StoreRefusal::Range);
        }
        if (*self).look(&s) == 0 && self.table.len() == self.limit {
            return Err(StoreRefusal::Full);
        }
        self.table.put(s, mask).map_err(|_| StoreRefusal::Full)
    }
}
