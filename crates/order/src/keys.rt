// Kinds of key with an order.
ghost use Rattle.std.specs.Prelude.{◌≡◌};
ghost use Rattle.std.specs.declared.cmp.Ordering.TheVariants.{Less, Equal};
ghost use Rattle.std.specs.declared.cmp.Ordering.{Ordering};
ghost use Rattle.std.specs.Ordering.{ordering_reverse};

use std::cmp::Ordering;

// A kind of key with a total order. Of two keys exactly one of less, same and greater holds, since `ranks` gives one
// answer and `flip` ties it to that of the keys exchanged; less carries along a chain; the same keys may replace each other.
// Keys that are the same in the order need not be equal.
pub trait Order {
    // what `compare` answers
    ghost ranks: { Self → Self → Ordering };

    fn compare(&self, other: &Self) -> Ordering
        ensures { result ≡ ranks self.now other.now };

    ghost flip: { (x y : Self) → ranks x y ≡ ordering_reverse (ranks y x) };

    ghost chain: { (x y z : Self) → ranks x y ≡ Less → ranks y z ≡ Less → ranks x z ≡ Less };

    ghost alike: { (x y z : Self) → ranks x y ≡ Equal → ranks x z ≡ ranks y z };
}

// Every kind of key that the library can order, by the library's order: vertices by their numbers.
impl<K: Ord> Order for K {
    ghost ranks = { K.Ord.cmp };

    ghost flip = { K.Ord.total.antisymm };

    ghost chain = { K.Ord.total.trans };

    ghost alike = { K.Ord.total.congr };

    fn compare(&self, other: &K) -> Ordering {
        self.cmp(other)
    }
}
