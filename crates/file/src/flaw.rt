// What can be wrong with a file, and where.
ghost use Rattle.std.specs.Prelude.{◌≡◌};
ghost use Rattle.file.specs.Outcome.{number_of};

use crate::entry::Site;

#[derive(Debug, Clone, Copy, PartialEq, Eq)]
pub enum Flaw {
    // the file ends inside a count or an entry
    Ends,
    // bytes are left after the last section
    Spare,
    // an entry of a part has not one to four vertices
    Vertices,
}

// A flaw and where it stands.
#[derive(Debug, Clone, Copy, PartialEq, Eq)]
pub struct Flawed {
    pub site: Site,
    pub flaw: Flaw,
}

// The number by which a refusal is told.
impl From<Flaw> for u8 {
    ghost from_gives = { λ flaw number. number ≡ number_of flaw };

    fn from(flaw: Flaw) -> u8 {
        match flaw {
            Flaw::Vertices => 2,
            Flaw::Ends => 6,
            Flaw::Spare => 7,
        }
    }
}
