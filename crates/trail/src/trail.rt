// The records, one after another from the first byte on, the newest last.
pub mod changes;
pub mod questions;

use std::marker::Model;

// How many bytes a trail has.
pub const CAPACITY: usize = 32768;

// The first `used` bytes are the records; the others are unsettled.
// Fixed memory: a trail keeps its bytes in an array of its own, and no memory is asked for.
#[derive(Drop)]
pub struct Trail {
    bytes: [u8; CAPACITY],
    used: usize,
}

impl Model for Trail {
    ghost use Rattle.trail.specs.Past.{Past, past_of, HoldsRecords};

    ghost Value = { Past };

    ghost view = { λ t. past_of t.bytes t.used };

    ghost invariant = { λ t. HoldsRecords t.bytes t.used };
}
