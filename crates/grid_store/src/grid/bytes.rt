// Opening a grid store over lent bytes, and what it finds in them and writes into them.
ghost use Rattle.std.specs.Prelude.{◌≡◌, ◌<◌, ◌==◌, [], length, drop, not, position, slice_set};
ghost use Rattle.order.specs.Assoc.{first};
ghost use Rattle.simplex.specs.Simplexes.{vertices, found};
ghost use Rattle.store.specs.Puts.{put_answer};
ghost use Rattle.grid_store.specs.Places.{vertex_range};
ghost use Rattle.grid_store.specs.Masks.{counts, masks_from, emptied, grid_of, limit_over, placed};
ghost use Rattle.grid_store.specs.Stores.{contents, limit_of};

use crate::grid::GridStore;
use crate::places::{PLACES, RANGE, place, simplex_at};
use simplex::simplex::Simplex;
use store::meaning::Store;
use store::refusal::StoreRefusal;

// How many simplexes a store over so many bytes can hold.
fn limit_over(len: usize) -> usize
    ensures { result ≡ limit_over len }
{
    if len < PLACES { 0 } else { PLACES }
}

// How many simplexes a byte holds.
fn counts(byte: u8) -> usize
    ensures { result ≡ counts byte }
{
    usize::from(byte != 0)
}

// The place of the first byte that holds a simplex.
fn first_set(bytes: &[u8]) -> Option<usize>
    ensures { result ≡ position (λ byte. not (byte == 0)) bytes.now }
{
    bytes.iter().position(|byte| *byte != 0)
}

impl<'a> GridStore<'a> {
    // An empty store. Fewer bytes than there are places give limit 0 and are not written.
    pub fn open(bytes: &'a mut [u8]) -> GridStore<'a>
        ensures contents { contents result ≡ record { model = []; limit = limit_over (length bytes.old); range = vertex_range } }
        ensures bytes { result.bytes.now ≡ emptied bytes.old }
        ensures lender { result.bytes.ghost_name ≡ bytes.entry.ghost_name }
    {
        let limit = limit_over(bytes.len());
        bytes[..limit].fill(0);
        GridStore { bytes, held: 0 }
    }

    // The bytes of the grid, one for each place, or none.
    pub(crate) fn grid(&self) -> &[u8]
        ensures { result.now ≡ grid_of self.now.bytes.now }
    {
        &self.bytes[..limit_over(self.bytes.len())]
    }

    // The place of a simplex, if the grid has one for it.
    pub(crate) fn find(&self, s: &Simplex) -> Option<usize>
        ensures { result ≡ placed (limit_of self.now) (vertices s.now) }
    {
        if self.limit() > 0 && s.within(RANGE) {
            Some(place(s))
        } else {
            None
        }
    }

    // What a put answers. The table store asks the same in the same order; one function over every store would call back into
    // the block of its `put`, and such a cycle gets no proof.
    pub(crate) fn admit(&self, s: &Simplex, mask: u8) -> Result<(), StoreRefusal>
        ensures { result ≡ put_answer (contents self.now) (vertices s.now) mask }
    {
        if mask == 0 {
            Ok(())
        } else if !s.within(RANGE) {
            Err(StoreRefusal::Range)
        } else if self.look(s) == 0 && self.held == self.limit() {
            Err(StoreRefusal::Full)
        } else {
            Ok(())
        }
    }

    // Writes the byte at a place, and keeps count.
    pub(crate) fn write(&mut self, p: usize, mask: u8)
        requires { p < limit_of self.old }
        ensures bytes { self.new.bytes.now ≡ slice_set self.old.bytes.now p mask }
        ensures lender { self.new.bytes.ghost_name ≡ self.old.bytes.ghost_name }
    {
        let held = self.held + counts(mask) - counts(self.bytes[p]);
        self.bytes[p] = mask;
        self.held = held;
    }

    // The first simplex held from a place on.
    pub(crate) fn first_from(&self, from: usize) -> Option<Simplex>
        ensures { found result ≡ first (masks_from from (drop from (grid_of self.now.bytes.now))) }
    {
        let later = self.grid().get(from..)?;
        Some(simplex_at(from + first_set(later)?))
    }
}
