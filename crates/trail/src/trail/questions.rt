// What a trail is asked.
ghost use Rattle.std.specs.Prelude.{◌≡◌, ◌+◌, length};
ghost use Rattle.trail.specs.Notes.{capacity, bytes_of, room_used, has_room};
ghost use Rattle.trail.specs.Decoding.{notes_of};
ghost use Rattle.trail.specs.Questions.{newest_head, newest_pair, traced, merged};

use crate::head::Head;
use crate::layout::{FOOT, HEAD, head_at, record_length, word_at};
use crate::trail::{CAPACITY, Trail};
use crate::walk::Heads;

impl Trail {
    // How many bytes the records take.
    pub fn used(&self) -> usize
        ensures value { result ≡ room_used self.now.notes }
        ensures whole { room_used self.now.notes + length self.now.behind ≡ capacity }
    {
        self.used
    }

    // The bytes of the records.
    pub fn bytes(&self) -> &[u8]
        ensures { result.now ≡ bytes_of self.now.notes }
    {
        &self.bytes[..self.used]
    }

    // Whether a record of s pairs fits behind the last one.
    pub fn fits(&self, s: usize) -> bool
        ensures { result ≡ has_room self.now.notes s }
    {
        let free = CAPACITY - self.used;
        free >= HEAD + FOOT && s <= (free - HEAD - FOOT) / 2
    }

    // The head of the newest record.
    pub fn newest(&self) -> Option<Head>
        ensures { result ≡ newest_head self.now.notes }
    {
        if self.used == 0 {
            return None;
        }
        let s = usize::from(word_at(&self.bytes, self.used - FOOT));
        Some(head_at(&self.bytes, self.used - record_length(s)))
    }

    // Pair i of the newest record, or two zeros past its last: mask 0 tells of an absent simplex.
    pub fn pair(&self, i: usize) -> (u8, u8)
        ensures { result ≡ newest_pair self.now.notes i }
    {
        match self.newest() {
            Some(head) if i < head.s => {
                let at = self.used - FOOT - 2 * (head.s - i);
                (self.bytes[at], self.bytes[at + 1])
            }
            _ => (0, 0),
        }
    }

    // The heads of the records, from the oldest to the newest.
    fn heads(&self) -> Heads<'_>
        ensures { notes_of result.records.now ≡ self.now.notes }
    {
        Heads {
            records: self.bytes(),
        }
    }

    // Where a vertex has gone, from the oldest record to the newest.
    pub fn traced(&self, w: u16) -> u16
        ensures { result ≡ traced self.now.notes w }
    {
        self.heads()
            .fold(w, |at, head| if at == head.v { head.u } else { at })
    }

    // Whether a vertex was merged into another.
    pub fn merged(&self, w: u16) -> bool
        ensures { result ≡ merged self.now.notes w }
    {
        self.heads().any(|head| w == head.v)
    }
}
