// The meaning of a store. The levels above rely on no more than this.
ghost use Rattle.std.specs.Prelude.{◌≡◌, length};
ghost use Rattle.order.specs.Assoc.{next};
ghost use Rattle.complex.specs.Model.{mask};
ghost use Rattle.complex.specs.Simplex.{colex};
ghost use Rattle.simplex.specs.Simplexes.{vertices, vertices_or_none, found};
ghost use Rattle.store.specs.Contents.{Contents, Stored};
ghost use Rattle.store.specs.Puts.{put_answer, put_next};

use crate::refusal::StoreRefusal;
use simplex::simplex::Simplex;

pub trait Store {
    // the map, the limit and the range
    ghost contents: { Self → Contents };

    // what holds of them at all times
    ghost stored: { (x : Self) → Stored (contents x) };

    // The mask of a simplex, or 0 if it is absent.
    // Not an Option: mask 0 stands for absence in the definition of a model.
    fn look(&self, s: &Simplex) -> u8
        ensures { result ≡ mask (contents self.now).model (vertices s.now) };

    // The least held simplex later in the order than the given one; None given stands for the empty simplex.
    fn after(&self, s: Option<Simplex>) -> Option<Simplex>
        ensures { found result ≡ next colex (vertices_or_none s) (contents self.now).model };

    // How many simplexes are held.
    fn held(&self) -> usize
        ensures { result ≡ length (contents self.now).model };

    // How many can be held.
    fn limit(&self) -> usize
        ensures { result ≡ (contents self.now).limit };

    // The vertices that can be held are below this.
    fn range(&self) -> u16
        ensures { result ≡ (contents self.now).range };

    // Gives a simplex a mask; 0 removes it.
    fn put(&mut self, s: Simplex, mask: u8) -> Result<(), StoreRefusal>
        ensures value { result ≡ put_answer (contents self.old) (vertices s) mask }
        ensures after { contents self.new ≡ put_next (contents self.old) (vertices s) mask };
}
