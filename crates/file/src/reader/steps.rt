// The steps of a reader.
ghost use Rattle.std.specs.Prelude.{◌≡◌, ◌+◌, ◌<◌, [], OnOk, IfErr, MatchResult};
ghost use Rattle.std.specs.Iterator.{YieldsFirstBy, item_count};
ghost use Rattle.file.specs.Entry.{section_count};
ghost use Rattle.file.specs.Outcome.{outcomes, site_at};
ghost use Rattle.file.specs.Reading.{to_come, told, EndsIn, Finds, Steps};

use super::Reader;
use crate::entry::{Placed, Site};
use crate::flaw::{Flaw, Flawed};
use crate::section::Section;

// How many sections a file has.
const SECTIONS: u8 = 11;

// Hands out the entries in order, and then the flaw that stands after them, if any, as the last.
impl<'a> Iterator for Reader<'a> {
    type Item = Result<Placed<'a>, Flawed>;

    ghost next_gives = { YieldsFirstBy told to_come };

    ghost remaining = { item_count to_come };

    fn next(&mut self) -> Option<Result<Placed<'a>, Flawed>> {
        match self.step() {
            Ok(next) => next.map(Ok),
            Err(flawed) => {
                self.stop();
                Some(Err(flawed))
            }
        }
    }
}

impl<'a> Reader<'a> {
    pub fn new(file: &'a [u8]) -> Reader<'a>
        ensures { to_come result ≡ outcomes file.now }
    {
        Reader {
            rest: file,
            size: file.len(),
            section: 0,
            entry: 0,
            left: 0,
        }
    }

    // The next entry; None at the end of the file.
    fn step(&mut self) -> Result<Option<Placed<'a>>, Flawed>
        ensures { Steps (to_come self.old) result (to_come self.new) }
    {
        // A section may be empty, so counts are read until one is not 0. An iterator over the counts would borrow the
        // reader that `begin` changes, and be no shorter.
        while self.left == 0 {
            if self.section == SECTIONS {
                self.finish()?;
                return Ok(None);
            }
            self.begin()?;
        }
        Ok(Some(self.take()?))
    }

    // After the last section no byte may be left.
    fn finish(&self) -> Result<(), Flawed>
        requires { (self.now.section ≡ section_count) × (self.now.left ≡ 0) }
        ensures { MatchResult result (λ _. to_come self.now ≡ []) (EndsIn (to_come self.now)) }
    {
        if self.rest.is_empty() {
            return Ok(());
        }
        Err(Flawed {
            site: self.site(self.section, self.entry),
            flaw: Flaw::Spare,
        })
    }

    // Begins the next section with its count.
    fn begin(&mut self) -> Result<(), Flawed>
        requires none_left { self.old.left ≡ 0 }
        requires more { self.old.section < section_count }
        ensures next { OnOk result (self.new.section ≡ self.old.section + 1) }
        ensures same { OnOk result (to_come self.old ≡ to_come self.new) }
        ensures flaw { IfErr result (EndsIn (to_come self.old)) }
    {
        let [hi, lo, rest @ ..] = self.rest else {
            return Err(Flawed {
                site: self.site(self.section + 1, 0),
                flaw: Flaw::Ends,
            });
        };
        self.left = u16::from_be_bytes([*hi, *lo]);
        self.entry = 0;
        self.section += 1;
        self.rest = rest;
        Ok(())
    }

    // Takes the next entry of the section.
    fn take(&mut self) -> Result<Placed<'a>, Flawed>
        requires { 0 < self.old.left }
        ensures { MatchResult result (λ placed. Finds (to_come self.old) placed (to_come self.new)) (EndsIn (to_come self.old)) }
    {
        let site = self.site(self.section, self.entry);
        let (entry, rest) = Section::from(self.section)
            .first(self.rest)
            .map_err(|flaw| Flawed { site, flaw })?;
        self.rest = rest;
        self.entry += 1;
        self.left -= 1;
        Ok(Placed { site, entry })
    }

    // The next byte's place, as that of an entry or a count.
    fn site(&self, section: u8, entry: u16) -> Site
        ensures { result ≡ site_at self.now.size section entry self.now.rest.now }
    {
        Site {
            section,
            entry,
            place: self.size - self.rest.len(),
        }
    }

    // Ends the reading: no section and no byte is left.
    fn stop(&mut self)
        ensures { to_come self.new ≡ [] }
    {
        self.rest = &[];
        self.section = SECTIONS;
        self.left = 0;
    }
}
