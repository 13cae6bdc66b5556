// The grid store as a store: its questions and its one change.
ghost use Rattle.std.specs.Prelude.{◌≡◌};
ghost use Rattle.simplex.specs.Simplexes.{vertices};
ghost use Rattle.store.specs.Puts.{put_answer, put_next, settled};
ghost use Rattle.grid_store.specs.Masks.{placed, marked};
ghost use Rattle.grid_store.specs.Stores.{contents, contents_stored, limit_of};

use crate::grid::GridStore;
use crate::places::{RANGE, past};
use simplex::simplex::Simplex;
use store::meaning::Store;
use store::refusal::StoreRefusal;

// `held` is a number kept beside the bytes. `after` reads the bytes from the given simplex to the one it answers, 41,448 at
// most, so that a walk through the whole store reads each byte once.
impl<'a> Store for GridStore<'a> {
    ghost contents = { contents };

    ghost stored = { contents_stored };

    fn look(&self, s: &Simplex) -> u8 {
        match self.find(s) {
            Some(p) => self.bytes[p],
            None => 0,
        }
    }

    fn after(&self, s: Option<Simplex>) -> Option<Simplex> {
        match s {
            Some(s) => self.first_from(past(&s)),
            None => self.first_from(0),
        }
    }

    fn held(&self) -> usize {
        self.held
    }

    fn limit(&self) -> usize {
        self.grid().len()
    }

    fn range(&self) -> u16 {
        RANGE
    }

    fn put(&mut self, s: Simplex, mask: u8) -> Result<(), StoreRefusal>
        ensures value { result ≡ put_answer (contents self.old) (vertices s) mask }
        ensures after { contents self.new ≡ put_next (contents self.old) (vertices s) mask }
        ensures bytes { self.new.bytes.now ≡ settled result self.old.bytes.now (marked (placed (limit_of self.old) (vertices s)) mask self.old.bytes.now) }
        ensures lender { self.new.bytes.ghost_name ≡ self.old.bytes.ghost_name }
    {
        self.admit(&s, mask)?;
        if let Some(p) = self.find(&s) {
            self.write(p, mask);
        }
        Ok(())
    }
}
