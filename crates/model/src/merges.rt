// Merging one vertex into another in place, in any store.
ghost use Rattle.std.specs.Prelude.{◌≡◌, ◌<◌, true, [], ◌∷◌, ◌≢◌};
ghost use Rattle.order.specs.Assoc.{later};
ghost use Rattle.complex.specs.Model.{mask as mask_of, Legal};
ghost use Rattle.complex.specs.Simplex.{colex, below, has, plus, less};
ghost use Rattle.collapse.specs.Image.{collapse};
ghost use Rattle.simplex.specs.Simplexes.{vertices, vertices_or_none, found};
ghost use Rattle.store.specs.Contents.{holding};
ghost use Rattle.model.specs.Merges.{merge_one};
ghost use Rattle.model.specs.Sides.{first_sided};

use simplex::simplex::Simplex;
use store::meaning::Store;
use store::walk::Simplexes;

// The vertex v goes into u. A tie is looked for where u and v are equal too, so that they differ is asked by the calls that need it.
#[derive(Clone, Copy, Debug, PartialEq, Eq)]
pub(crate) struct Merge {
    pub(crate) u: u16,
    pub(crate) v: u16,
}

impl Merge {
    // Every simplex with v goes to the one with u in the place of v, which gets its bits.
    // That the model is legal is a clause and not part of a type: between two of these merges it need not be legal.
    pub(crate) fn run<S: Store>(self, store: &mut S)
        requires distinct { self.u ≢ self.v }
        requires range { below (S.Store.contents store.old).range (self.u ∷ []) ≡ true }
        requires legal { Legal (S.Store.contents store.old).model }
        ensures { S.Store.contents store.new ≡ holding (S.Store.contents store.old) (collapse self.u self.v (S.Store.contents store.old).model) }
    {
        // The store changes on the way, so it is asked anew for each next simplex.
        let mut at = None;
        while let Some(t) = (*store).after(at) {
            if t.has(self.v) {
                self.merge_one(store, &t);
            }
            at = Some(t);
        }
    }

    // Takes out a held simplex with v; where it lacks u, the one with u in the place of v gets its bits.
    fn merge_one<S: Store>(self, store: &mut S, t: &Simplex)
        requires range { below (S.Store.contents store.old).range (self.u ∷ []) ≡ true }
        requires held { 0 < mask_of (S.Store.contents store.old).model (vertices t.now) }
        requires taken { has self.v (vertices t.now) ≡ true }
        ensures { S.Store.contents store.new ≡ holding (S.Store.contents store.old) (merge_one self.u self.v (S.Store.contents store.old).model (vertices t.now)) }
    {
        let mask = (*store).look(t);
        let _ = store.put(*t, 0);
        if !t.has(self.u) {
            let moved = self.replaced(t);
            let joined = (*store).look(&moved) | mask;
            let _ = store.put(moved, joined);
        }
    }

    // A simplex with v, in which u stands in the place of v.
    fn replaced(self, t: &Simplex) -> Simplex
        requires { has self.v (vertices t.now) ≡ true }
        ensures { vertices result ≡ plus self.u (less self.v (vertices t.now)) }
    {
        match t.without(self.v) {
            Some(rest) => rest.with(self.u).unwrap(),
            None => Simplex::point(self.u),
        }
    }

    // The next held simplex with u and without v.
    pub(crate) fn next_sided<S: Store>(self, store: &S, at: Option<Simplex>) -> Option<Simplex>
        ensures { found result ≡ first_sided self.u self.v (later colex (vertices_or_none at) (S.Store.contents store.now).model) }
    {
        Simplexes::after(store, at).find(|s| s.has(self.u) && !s.has(self.v))
    }
}
