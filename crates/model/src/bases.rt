// The bases of a vertex, met in order: each simplex, the empty one included, over which the vertex stands and another does not.
ghost use Rattle.std.specs.Prelude.{◌≡◌, ℕ, List};
ghost use Rattle.std.specs.Option.{option_map};
ghost use Rattle.simplex.specs.Simplexes.{vertices_or_none, found};
ghost use Rattle.model.specs.Notes.{bases_without, ahead, head, past_base, lesser};

use crate::merges::Merge;
use simplex::simplex::Simplex;
use std::marker::Model;
use store::meaning::Store;

// The bases over u, without v, from the simplex `next` on. Clauses see them as the list of those that are left.
#[derive(Drop)]
pub(crate) struct Bases<'a, S: Store> {
    store: &'a S,
    merge: Merge,
    next: Option<Simplex>,
}

impl<'a, S: Store> Model for Bases<'a, S> {
    ghost Value = { List (List ℕ) };

    ghost view = { λ b. ahead b.merge.u b.merge.v (S.Store.contents b.store.now).model (found b.next) };
}

impl<'a, S: Store> Bases<'a, S> {
    // All of them.
    pub(crate) fn of(store: &'a S, merge: Merge) -> Bases<'a, S>
        ensures { result ≡ bases_without merge.u merge.v (S.Store.contents store.now).model }
    {
        Bases {
            store,
            merge,
            next: merge.next_sided(store, None),
        }
    }

    // The first of those that are left; the empty simplex is None.
    pub(crate) fn first(&self) -> Option<Option<Simplex>>
        ensures { option_map vertices_or_none result ≡ head self.now }
    {
        let s = self.next?;
        Some(s.without(self.merge.u))
    }

    // Leaves this base behind, if it is the first.
    pub(crate) fn pass(&mut self, base: Option<Simplex>)
        ensures { self.new ≡ past_base (vertices_or_none base) self.old }
    {
        if self.first() == Some(base) {
            self.next = self.merge.next_sided(self.store, self.next);
        }
    }
}

// The lesser of two bases, or the one that there is.
pub(crate) fn lesser_base(
    a: Option<Option<Simplex>>,
    b: Option<Option<Simplex>>,
) -> Option<Option<Simplex>>
    ensures { option_map vertices_or_none result ≡ lesser (option_map vertices_or_none a) (option_map vertices_or_none b) }
{
    match (a, b) {
        (None, b) => b,
        (a, None) => a,
        (Some(a), Some(b)) => Some(a.min(b)),
    }
}
