// Walks over the faces of a simplex, in any store.
ghost use Rattle.std.specs.Prelude.{◌≡◌, ℕ, ◌+◌, ◌<◌, ◌≤◌, true, List, length};
ghost use Rattle.complex.specs.Model.{mask, lay, absent, mark, unmarked};
ghost use Rattle.complex.specs.Simplex.{faces, below, Face};
ghost use Rattle.simplex.specs.Simplexes.{vertices};
ghost use Rattle.store.specs.Contents.{holding};

use crate::part::Part;
use simplex::simplex::Simplex;
use store::meaning::Store;

// How many faces are absent.
pub(crate) fn absent_faces<S: Store>(store: &S, s: &Simplex) -> usize
    ensures { result ≡ absent (S.Store.contents store.now).model (faces (vertices s.now)) }
{
    s.faces().filter(|face| store.look(face) == 0).count()
}

// How many faces lack the part's bit.
pub(crate) fn unmarked_faces<S: Store>(store: &S, part: Part, s: &Simplex) -> usize
    ensures { result ≡ unmarked part.number (S.Store.contents store.now).model (faces (vertices s.now)) }
{
    s.faces()
        .filter(|face| !part.is_in(store.look(face)))
        .count()
}

// Puts every absent face, for which there is room.
// Not one loop with `mark_faces`: laying asks for room and puts the absent faces, marking does not and puts every one.
pub(crate) fn lay_faces<S: Store>(store: &mut S, s: &Simplex)
    requires range { below (S.Store.contents store.old).range (vertices s.now) ≡ true }
    requires room { length (S.Store.contents store.old).model + absent (S.Store.contents store.old).model (faces (vertices s.now)) ≤ (S.Store.contents store.old).limit }
    ensures { S.Store.contents store.new ≡ holding (S.Store.contents store.old) (lay (S.Store.contents store.old).model (vertices s.now)) }
{
    for face in s.faces() {
        if (*store).look(&face) == 0 {
            let _ = store.put(face, 1);
        }
    }
}

// Sets the part's bit on every face of a simplex. Where all are held, each put finds room.
// Not one loop with `lay_faces`, which asks for something else and passes the held faces by.
pub(crate) fn mark_faces<S: Store>(store: &mut S, part: Part, s: &Simplex)
    requires range { below (S.Store.contents store.old).range (vertices s.now) ≡ true }
    ensures { ((q : List ℕ) → Face q (vertices s.now) → 0 < mask (S.Store.contents store.old).model q) → S.Store.contents store.new ≡ holding (S.Store.contents store.old) (mark part.number (S.Store.contents store.old).model (vertices s.now)) }
{
    for face in s.faces() {
        let mask = (*store).look(&face) | part.mask();
        let _ = store.put(face, mask);
    }
}
