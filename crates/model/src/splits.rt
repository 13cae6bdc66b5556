// The walk that takes back a collapse, in any store.
ghost use Rattle.std.specs.Prelude.{◌≡◌, true};
ghost use Rattle.complex.specs.Model.{write};
ghost use Rattle.complex.specs.Simplex.{has, plus, less};
ghost use Rattle.collapse.specs.Split.{split_one, split};
ghost use Rattle.simplex.specs.Simplexes.{vertices, vertices_or_none};
ghost use Rattle.store.specs.Contents.{holding};
ghost use Rattle.model.specs.Splits.{newest_pairs, Takes, SplitsAt, Undoes};

use crate::merges::Merge;
use crate::plus::with_vertex;
use simplex::simplex::Simplex;
use store::meaning::Store;
use trail::trail::Trail;

impl Merge {
    // Takes it back, by the pairs of the newest record.
    pub(crate) fn undo<S: Store>(self, store: &mut S, trail: &Trail)
        requires { Undoes self.u self.v (S.Store.contents store.old) (newest_pairs trail.now.notes) (split self.u self.v (S.Store.contents store.old).model (newest_pairs trail.now.notes)) }
        ensures { S.Store.contents store.new ≡ holding (S.Store.contents store.old) (split self.u self.v (S.Store.contents store.old).model (newest_pairs trail.now.notes)) }
    {
        // The store changes on the way, so it is asked anew for each next simplex; i counts their pairs along.
        let mut i = 0;
        let mut at = None;
        while let Some(t) = self.next_sided(store, at) {
            self.undo_one(store, &t, trail.pair(i));
            i += 1;
            at = Some(t);
        }
    }

    // The masks a and b of σ+u and σ+v take the place of their union at t, which is σ+u.
    fn undo_one<S: Store>(self, store: &mut S, t: &Simplex, pair: (u8, u8))
        requires meets { has self.u (vertices t.now) ≡ true }
        requires splits { SplitsAt self.u self.v (S.Store.contents store.old) (less self.u (vertices t.now)) pair.0 pair.1 }
        ensures { S.Store.contents store.new ≡ holding (S.Store.contents store.old) (split_one self.u self.v (S.Store.contents store.old).model (less self.u (vertices t.now)) pair.0 pair.1) }
    {
        let (a, b) = pair;
        let base = t.without(self.u);
        put_with(store, base, self.u, a);
        put_with(store, base, self.v, b);
        put_with(store, Some(*t), self.v, a & b);
    }
}

// Gives the simplex with the vertex x added a mask, which is 0 if that makes five vertices.
fn put_with<S: Store>(store: &mut S, base: Option<Simplex>, x: u16, mask: u8)
    requires { Takes (S.Store.contents store.old) (plus x (vertices_or_none base)) mask }
    ensures { S.Store.contents store.new ≡ holding (S.Store.contents store.old) (write (S.Store.contents store.old).model (plus x (vertices_or_none base)) mask) }
{
    if let Some(s) = with_vertex(base, x) {
        let _ = store.put(s, mask);
    }
}
