// Why a put is refused.

#[derive(Clone, Copy, Debug, PartialEq, Eq)]
pub enum StoreRefusal {
    // a vertex is not below the range
    Range,
    // the store is full
    Full,
}

// The number of the refusal.
impl From<StoreRefusal> for u8 {
    ghost use Rattle.std.specs.Prelude.{◌≡◌};
    ghost use Rattle.store.specs.Puts.{store_number};

    ghost from_gives = { λ r n. n ≡ store_number r };

    fn from(refusal: StoreRefusal) -> u8 {
        match refusal {
            StoreRefusal::Range => 3,
            StoreRefusal::Full => 22,
        }
    }
}
