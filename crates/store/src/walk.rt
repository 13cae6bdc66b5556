// A walk over what a store holds, one simplex after another.
ghost use Rattle.std.specs.Prelude.{◌≡◌, ℕ, List};
ghost use Rattle.order.specs.Assoc.{later};
ghost use Rattle.complex.specs.Simplex.{colex};
ghost use Rattle.simplex.specs.Simplexes.{vertices, vertices_or_none};
ghost use Rattle.store.specs.Walk.{keys};
ghost use Rattle.std.specs.Iterator.{YieldsFirstBy, item_count};

use crate::meaning::Store;
use simplex::simplex::Simplex;
use std::marker::Model;

// The held simplexes later than `at`, or all of them, in order. Clauses see a walk as the list of those that it has left.
#[derive(Drop)]
pub struct Simplexes<'a, S: Store> {
    store: &'a S,
    at: Option<Simplex>,
}

impl<'a, S: Store> Model for Simplexes<'a, S> {
    ghost Value = { List (List ℕ) };

    ghost view = { λ w. keys (later colex (vertices_or_none w.at) (S.Store.contents w.store.now).model) };
}

impl<'a, S: Store> Simplexes<'a, S> {
    // All that the store holds.
    pub fn of(store: &'a S) -> Simplexes<'a, S>
        ensures { result ≡ keys (S.Store.contents store.now).model }
    {
        Simplexes { store, at: None }
    }

    // What it holds that is later than a simplex; None stands for the empty one.
    pub fn after(store: &'a S, at: Option<Simplex>) -> Simplexes<'a, S>
        ensures { result ≡ keys (later colex (vertices_or_none at) (S.Store.contents store.now).model) }
    {
        Simplexes { store, at }
    }
}

impl<'a, S: Store> Iterator for Simplexes<'a, S> {
    type Item = Simplex;

    ghost next_gives = { YieldsFirstBy vertices (λ w. w) };

    ghost remaining = { item_count (λ w. w) };

    fn next(&mut self) -> Option<Simplex> {
        let s = self.store.after(self.at)?;
        self.at = Some(s);
        Some(s)
    }
}
