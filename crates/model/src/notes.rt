// What the record of a collapse keeps, found before the store changes.
ghost use Rattle.std.specs.Prelude.{◌≡◌, ℕ, Ok, ◌≢◌};
ghost use Rattle.complex.specs.Model.{Legal};
ghost use Rattle.collapse.specs.Split.{pairs_of};
ghost use Rattle.trail.specs.Past.{pending};
ghost use Rattle.model.specs.Notes.{note_answer};

use crate::bases::{Bases, lesser_base};
use crate::merges::Merge;
use crate::plus::mask_with;
use store::meaning::Store;
use trail::refusal::TrailFull;
use trail::trail::Trail;

impl Merge {
    // Writes the pairs of its record behind the last record, and answers their number, if the record fits.
    // That the model is legal is a clause and not part of a type: a bare store need not be legal between two puts.
    pub(crate) fn note<S: Store>(self, store: &S, trail: &mut Trail) -> Result<usize, TrailFull>
        requires distinct { self.u ≢ self.v }
        requires legal { Legal (S.Store.contents store.now).model }
        ensures value { result ≡ note_answer self.u self.v (S.Store.contents store.now).model trail.old.notes }
        ensures kept { trail.new.notes ≡ trail.old.notes }
        ensures pairs { (s : ℕ) → result ≡ Ok s → pending trail.new s ≡ pairs_of self.u self.v (S.Store.contents store.now).model }
    {
        let Merge { u, v } = self;
        let mut over_u = Bases::of(store, self);
        let mut over_v = Bases::of(store, Merge { u: v, v: u });
        // Each call takes the number of its pair, and the number of all is the answer, which `enumerate` would not leave.
        // An iterator over the two walks would be no shorter.
        let mut n = 0;
        while let Some(base) = lesser_base(over_u.first(), over_v.first()) {
            trail.note_pair(n, mask_with(store, base, u), mask_with(store, base, v))?;
            n += 1;
            over_u.pass(base);
            over_v.pass(base);
        }
        if trail.fits(n) { Ok(n) } else { Err(TrailFull) }
    }
}
