// The changes of a draft, in any store. What they leave is said of the store itself.
ghost use Rattle.std.specs.Prelude.{◌≡◌, cond, [], Ok, Err};
ghost use Rattle.complex.specs.Model.{Legal};
ghost use Rattle.complex.specs.Simplex.{below};
ghost use Rattle.simplex.specs.Simplexes.{vertices};
ghost use Rattle.store.specs.Contents.{holding};
ghost use Rattle.model.specs.declared.refusal.ModelRefusal.{ModelRefusal};
ghost use Rattle.model.specs.declared.refusal.ModelRefusal.TheVariants.{Range};
ghost use Rattle.model.specs.Calls.{lay_simplex, laid_simplex, mark_simplex, marked_simplex};

use crate::faces::{absent_faces, lay_faces, mark_faces, unmarked_faces};
use crate::part::Part;
use crate::refusal::ModelRefusal;
use simplex::simplex::Simplex;
use store::meaning::Store;

// Removes every simplex.
pub fn remove_all<S: Store>(store: &mut S)
    ensures { S.Store.contents store.new ≡ holding (S.Store.contents store.old) [] }
{
    // The store changes on the way, so it is asked anew for its first simplex each time.
    while let Some(s) = (*store).after(None) {
        let _ = store.put(s, 0);
    }
}

// Refuses a simplex with a vertex that is not below the range.
pub(crate) fn in_range<S: Store>(store: &S, simplex: &Simplex) -> Result<(), ModelRefusal>
    ensures { result ≡ cond (below (S.Store.contents store.now).range (vertices simplex.now)) (Ok tt) (Err Range) }
{
    if simplex.within(store.range()) {
        Ok(())
    } else {
        Err(ModelRefusal::Range)
    }
}

// Adds a simplex and its absent faces, and answers how many it added.
pub fn lay_simplex<S: Store>(store: &mut S, simplex: &Simplex) -> Result<usize, ModelRefusal>
    ensures value { result ≡ lay_simplex (S.Store.contents store.old) (vertices simplex.now) }
    ensures after { S.Store.contents store.new ≡ laid_simplex (S.Store.contents store.old) (vertices simplex.now) }
{
    in_range(store, simplex)?;
    if (*store).look(simplex) != 0 {
        return Err(ModelRefusal::Held);
    }
    let absent = absent_faces(store, simplex);
    if (*store).held() + absent > (*store).limit() {
        return Err(ModelRefusal::Full);
    }
    lay_faces(store, simplex);
    Ok(absent)
}

// Marks a simplex and its faces with a part, and answers how many masks changed.
// A bare store need not be legal; where its model is, the faces are held, so that no put finds it full.
pub fn mark_simplex<S: Store>(
    store: &mut S,
    part: Part,
    simplex: &Simplex,
) -> Result<usize, ModelRefusal>
    ensures value { result ≡ mark_simplex (S.Store.contents store.old) part.number (vertices simplex.now) }
    ensures refused { (e : ModelRefusal) → result ≡ Err e → S.Store.contents store.new ≡ S.Store.contents store.old }
    ensures after { Legal (S.Store.contents store.old).model → S.Store.contents store.new ≡ marked_simplex (S.Store.contents store.old) part.number (vertices simplex.now) }
{
    in_range(store, simplex)?;
    if (*store).look(simplex) == 0 {
        return Err(ModelRefusal::Absent);
    }
    let unmarked = unmarked_faces(store, part, simplex);
    mark_faces(store, part, simplex);
    Ok(unmarked)
}
