// The search for where the link condition of an edge fails.
ghost use Rattle.std.specs.Prelude.{◌≡◌, ℕ, ◌<◌, ◌&&◌, is_some};
ghost use Rattle.complex.specs.Mask.{bit};
ghost use Rattle.complex.specs.Simplex.{has, less};
ghost use Rattle.simplex.specs.Simplexes.{vertices};
ghost use Rattle.model.specs.Ties.{shows, tie_in, tie, told_tie, SearchFinds};

use crate::merges::Merge;
use crate::part::Part;
use crate::plus::mask_with;
use simplex::simplex::Simplex;
use store::meaning::Store;
use store::walk::Simplexes;

// The smallest part for which the link condition fails, and the first simplex that shows it; None is the empty one.
#[derive(Clone, Copy, Debug, PartialEq, Eq)]
pub struct Tie {
    pub part: Part,
    pub base: Option<Simplex>,
}

impl Merge {
    // The smallest part for which the link condition of u and v fails, with the first simplex that shows it, if any.
    pub(crate) fn find_tie<S: Store>(self, store: &S) -> Option<Tie>
        ensures { told_tie result ≡ tie self.u self.v (S.Store.contents store.now).model }
    {
        let failing = self.failing_parts(store);
        'search: {
            for part in Part::all() {
                if !part.is_in(failing) {
                    continue;
                }
                for s in Simplexes::of(store) {
                    if part.is_in(self.failing_at(store, &s)) {
                        break 'search Some(Tie {
                            part,
                            base: s.without(self.u),
                        });
                    }
                }
            }
            None
        }
    }

    // The parts for which the condition fails somewhere.
    fn failing_parts<S: Store>(self, store: &S) -> u8
        ensures { (p : ℕ) → p < 8 → bit p result ≡ is_some (tie_in p self.u self.v (S.Store.contents store.now).model) }
    {
        let mut parts = 0u8;
        for s in Simplexes::of(store) {
            parts |= self.failing_at(store, &s);
        }
        parts
    }

    // The parts for which s without u shows that the condition fails; none where u is not in s.
    fn failing_at<S: Store>(self, store: &S, s: &Simplex) -> u8
        ensures { (p : ℕ) → p < 8 → bit p result ≡ (has self.u (vertices s.now) && shows p self.u self.v (S.Store.contents store.now).model (less self.u (vertices s.now))) }
    {
        let Merge { u, v } = self;
        if !s.has(u) || s.has(v) {
            return 0;
        }
        let with_u = store.look(s);
        let with_v = mask_with(store, s.without(u), v);
        let with_both = mask_with(store, Some(*s), v);
        with_u & with_v & !with_both
    }
}

// The search finds the smallest part and the first simplex that shows it, or the condition holds for the body and all parts.
pub fn search_finds()
    ensures { SearchFinds }
{}
