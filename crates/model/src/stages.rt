// The two stages of a model: a draft is laid and marked, and closing it gives the working model.
ghost use Rattle.std.specs.Prelude.{◌≡◌, length};
ghost use Rattle.complex.specs.Legality.{legal_prop};
ghost use Rattle.complex.specs.Model.{Legal};
ghost use Rattle.store.specs.Contents.{Stored};
ghost use Rattle.model.specs.Calls.{emptied, Lays, Marks, look_answer, euler_answer};

use crate::edits::{in_range, lay_simplex, mark_simplex, remove_all};
use crate::part::Part;
use crate::questions::euler;
use crate::refusal::ModelRefusal;
use simplex::simplex::Simplex;
use store::meaning::Store;

// A store whose model is legal, while it is laid and marked. The store is its own, or is lent to it.
#[derive(Drop)]
pub struct Draft<S: Store> {
    store: S,
    ghost legal: { Legal (S.Store.contents store).model } by { legal_prop (S.Store.contents store).model },
}

// A store whose model is legal, once its draft is closed.
// It has the fields of `Draft`: two types keep the calls of the stages apart, and one type with a marker for the stage would be no plainer.
#[derive(Drop)]
pub struct Working<S: Store> {
    store: S,
    ghost legal: { Legal (S.Store.contents store).model } by { legal_prop (S.Store.contents store).model },
}

impl<S: Store> Draft<S> {
    // Opening a draft empties its store.
    pub fn open(mut store: S) -> Draft<S>
        ensures { S.Store.contents result.store ≡ emptied (S.Store.contents store) }
    {
        remove_all(&mut store);
        Draft { store }
    }

    // The store that it stands on.
    pub fn store(&self) -> &S
        ensures { result.now ≡ self.now.store }
    {
        &self.store
    }

    // Removes everything that was laid.
    pub fn clear(&mut self)
        ensures { S.Store.contents self.new.store ≡ emptied (S.Store.contents self.old.store) }
    {
        remove_all(&mut self.store);
    }

    // How many simplexes are held.
    pub fn held(&self) -> usize
        ensures value { result ≡ length (S.Store.contents self.now.store).model }
        ensures stored { Stored (S.Store.contents self.now.store) }
        ensures legal { Legal (S.Store.contents self.now.store).model }
    {
        let store = &self.store;
        store.held()
    }

    // Adds a simplex and its absent faces, and answers how many it added.
    pub fn lay(&mut self, vertices: &[u16]) -> Result<usize, ModelRefusal>
        ensures { Lays (S.Store.contents self.old.store) (S.Store.contents self.new.store) vertices.now result }
    {
        let store = &mut self.store;
        let simplex = Simplex::try_from(vertices)?;
        lay_simplex(store, &simplex)
    }

    // Marks a simplex and its faces with a part, and answers how many masks changed.
    pub fn mark(&mut self, part: u16, vertices: &[u16]) -> Result<usize, ModelRefusal>
        ensures { Marks (S.Store.contents self.old.store) (S.Store.contents self.new.store) part vertices.now result }
    {
        let store = &mut self.store;
        if part == 0 {
            return Err(ModelRefusal::Part);
        }
        let part = Part::try_from(part)?;
        let simplex = Simplex::try_from(vertices)?;
        mark_simplex(store, part, &simplex)
    }

    // The working model of what is held, over the same store.
    pub fn close(self) -> Working<S>
        ensures { result.store ≡ self.store }
    {
        let Draft { store } = self;
        Working { store }
    }
}

impl<S: Store> Working<S> {
    // The store that it stands on.
    pub fn store(&self) -> &S
        ensures { result.now ≡ self.now.store }
    {
        &self.store
    }

    // How many simplexes are held.
    pub fn held(&self) -> usize
        ensures value { result ≡ length (S.Store.contents self.now.store).model }
        ensures stored { Stored (S.Store.contents self.now.store) }
        ensures legal { Legal (S.Store.contents self.now.store).model }
    {
        self.store.held()
    }

    // The mask of a simplex, 0 where it is absent.
    pub fn look(&self, vertices: &[u16]) -> Result<u8, ModelRefusal>
        ensures { result ≡ look_answer (S.Store.contents self.now.store) vertices.now }
    {
        let simplex = Simplex::try_from(vertices)?;
        in_range(&self.store, &simplex)?;
        Ok(self.store.look(&simplex))
    }

    // The Euler number of the body or a part.
    pub fn euler(&self, part: u16) -> Result<i32, ModelRefusal>
        ensures { result ≡ euler_answer (S.Store.contents self.now.store) part }
    {
        Ok(euler(&self.store, Part::try_from(part)?))
    }
}
