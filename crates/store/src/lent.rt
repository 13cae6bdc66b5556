// A store may be lent: what borrows a store to change it is a store too, with the same contents.
ghost use Rattle.std.specs.Prelude.{◌≡◌};

use crate::meaning::Store;
use crate::refusal::StoreRefusal;
use simplex::simplex::Simplex;
use std::marker::Model;

impl<'c, S: Store> Store for &'c mut S {
    ghost contents = { λ s. S.Store.contents s.now };

    ghost stored = { λ s. S.Store.stored s.now };

    fn look(&self, s: &Simplex) -> u8 {
        (**self).look(s)
    }

    fn after(&self, s: Option<Simplex>) -> Option<Simplex> {
        (**self).after(s)
    }

    fn held(&self) -> usize {
        (**self).held()
    }

    fn limit(&self) -> usize {
        (**self).limit()
    }

    fn range(&self) -> u16 {
        (**self).range()
    }

    fn put(&mut self, s: Simplex, mask: u8) -> Result<(), StoreRefusal> {
        (**self).put(s, mask)
    }
}

// A loan of a store, which clauses see as the store that is lent. As a store it does what a `&mut` does. A function that takes a
// draft or a working model over it by value can close it, pass it on or move it elsewhere; over a `&mut` the check covers that
// only where what the function returns holds the loan. Of the store once the loan is over clauses say nothing.
#[derive(Drop)]
pub struct Lent<'c, S: Store> {
    store: &'c mut S,
}

impl<'c, S: Store> Model for Lent<'c, S> {
    ghost Value = { S };

    ghost view = { λ l. l.store.now };
}

impl<'c, S: Store> Lent<'c, S> {
    // The loan of a store, which stays as it is.
    pub fn of(store: &'c mut S) -> Lent<'c, S>
        ensures { result ≡ store.old }
    {
        Lent { store }
    }
}

impl<'c, S: Store> Store for Lent<'c, S> {
    ghost contents = { S.Store.contents };

    ghost stored = { S.Store.stored };

    fn look(&self, s: &Simplex) -> u8 {
        (*self.store).look(s)
    }

    fn after(&self, s: Option<Simplex>) -> Option<Simplex> {
        (*self.store).after(s)
    }

    fn held(&self) -> usize {
        (*self.store).held()
    }

    fn limit(&self) -> usize {
        (*self.store).limit()
    }

    fn range(&self) -> u16 {
        (*self.store).range()
    }

    fn put(&mut self, s: Simplex, mask: u8) -> Result<(), StoreRefusal> {
        (*self.store).put(s, mask)
    }
}
