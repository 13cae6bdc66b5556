// The heads of records, one after another.
ghost use Rattle.std.specs.Prelude.{◌≡◌};
ghost use Rattle.std.specs.Iterator.{YieldsFirst, item_count};
ghost use Rattle.trail.specs.Notes.{bytes_of};
ghost use Rattle.trail.specs.Decoding.{notes_of};
ghost use Rattle.trail.specs.Heads.{heads_of};

use crate::head::Head;
use crate::layout::{head_at, record_length};

// The records whose heads are still to come, the oldest first.
#[derive(Drop)]
pub(crate) struct Heads<'a> {
    pub(crate) records: &'a [u8],
    ghost formed: { bytes_of (notes_of records.now) ≡ records.now },
}

impl<'a> Iterator for Heads<'a> {
    type Item = Head;

    ghost next_gives = { YieldsFirst (λ h. heads_of (notes_of h.records.now)) };

    ghost remaining = { item_count (λ h. heads_of (notes_of h.records.now)) };

    fn next(&mut self) -> Option<Head> {
        if self.records.is_empty() {
            return None;
        }
        let head = head_at(self.records, 0);
        let (_, later) = self.records.split_at(record_length(head.s));
        self.records = later;
        Some(head)
    }
}
