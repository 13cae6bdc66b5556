// A kind of key whose order is coarser than its equality.
ghost use Rattle.std.specs.Ordering.{nat_cmp};
ghost use Rattle.std.proofs.lemmas.Cmp.{nat_cmp_total};

use order::keys::Order;
use std::cmp::Ordering;

// A job with a number and a note.
#[derive(Clone, Copy, Debug, PartialEq, Eq)]
pub struct Job {
    pub number: u16,
    pub note: u16,
}

// By number; what is noted does not count.
impl Order for Job {
    ghost ranks = { λ x y. nat_cmp x.number y.number };

    ghost flip = { λ x y. nat_cmp_total.antisymm x.number y.number };

    ghost chain = { λ x y z. nat_cmp_total.trans x.number y.number z.number };

    ghost alike = { λ x y z. nat_cmp_total.congr x.number y.number z.number };

    fn compare(&self, other: &Job) -> Ordering {
        self.number.cmp(&other.number)
    }
}
