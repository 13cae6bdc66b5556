// What changes a trail.
ghost use Rattle.std.specs.Prelude.{◌≡◌, ◌+◌, [], is_ok};
ghost use Rattle.trail.specs.Notes.{has_room};
ghost use Rattle.trail.specs.Past.{Paired, Committed};
ghost use Rattle.trail.specs.Questions.{earlier};

use crate::head::Head;
use crate::layout::{HEAD, enclose, overwrite, record_length};
use crate::refusal::TrailFull;
use crate::trail::{CAPACITY, Trail};

impl Trail {
    // A trail with no record.
    pub fn new() -> Trail
        ensures { result.notes ≡ [] }
    {
        Trail {
            bytes: [0; CAPACITY],
            used: 0,
        }
    }

    // Writes pair i of the record that is being made, if it would still fit with this pair as its last.
    pub fn note_pair(&mut self, i: usize, a: u8, b: u8) -> Result<(), TrailFull>
        ensures answer { is_ok result ≡ has_room self.old.notes (i + 1) }
        ensures pairs { Paired i a b self.old self.new }
    {
        if i >= CAPACITY || !self.fits(i + 1) {
            return Err(TrailFull);
        }
        overwrite(&mut self.bytes, self.used + HEAD + 2 * i, &[a, b]);
        Ok(())
    }

    // Makes the record of this head and of the first pairs written the newest, if it fits, and answers its length.
    pub fn commit(&mut self, head: Head) -> Result<usize, TrailFull>
        ensures { Committed head self.old self.new result }
    {
        if !self.fits(head.s) {
            return Err(TrailFull);
        }
        let length = record_length(head.s);
        enclose(&mut self.bytes, self.used, head);
        self.used += length;
        Ok(length)
    }

    // Takes the newest record away; its bytes are free again.
    pub fn forget(&mut self)
        ensures { self.new.notes ≡ earlier self.old.notes }
    {
        if let Some(head) = self.newest() {
            self.used -= record_length(head.s);
        }
    }

    // Takes every record away.
    pub fn clear(&mut self)
        ensures { self.new.notes ≡ [] }
    {
        self.used = 0;
    }
}
