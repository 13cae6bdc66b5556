// A part by its number, and its bit of a mask.
ghost use Rattle.std.specs.Prelude.{◌≡◌, ◌^◌};
ghost use Rattle.complex.specs.Mask.{bit};
ghost use Rattle.std.specs.Iterator.{YieldsFirstBy, item_count};
ghost use Rattle.std.specs.List.{range_with_len};
ghost use Rattle.model.specs.Calls.{parts};
ghost use Rattle.model.specs.Parts.{IsPart, parts_left};

use crate::part::{Part, Parts, UnknownPart};

// The part of this number, if there is one.
impl TryFrom<u16> for Part {
    type Error = UnknownPart;

    ghost try_from_gives = { IsPart };

    fn try_from(number: u16) -> Result<Part, UnknownPart> {
        if number < 8 {
            Ok(Part {
                number: number as u8,
            })
        } else {
            Err(UnknownPart)
        }
    }
}

// The number of a part.
impl From<Part> for u8 {
    ghost from_gives = { λ p n. n ≡ p.number };

    fn from(part: Part) -> u8 {
        part.number
    }
}

impl Part {
    // The body, then the marked parts.
    pub fn all() -> Parts
        ensures { parts_left result ≡ range_with_len 0 parts }
    {
        Parts { next: 0 }
    }

    // The mask that has this part's bit alone.
    pub fn mask(&self) -> u8
        ensures { result ≡ 2 ^ self.now.number }
    {
        1 << self.number
    }

    // Does the mask have this part's bit?
    pub fn is_in(&self, mask: u8) -> bool
        ensures { result ≡ bit self.now.number mask }
    {
        (mask >> self.number) % 2 == 1
    }
}

impl Iterator for Parts {
    type Item = Part;

    ghost next_gives = { YieldsFirstBy (λ p. p.number) parts_left };

    ghost remaining = { item_count parts_left };

    fn next(&mut self) -> Option<Part> {
        if self.next < 8 {
            let part = Part { number: self.next };
            self.next += 1;
            Some(part)
        } else {
            None
        }
    }
}
