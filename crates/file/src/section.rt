// A section of the file, by what its entries are.
ghost use Rattle.std.specs.Prelude.{◌≡◌, ◌≤◌, length, IfOk};
ghost use Rattle.file.specs.Entry.{content, entry_in, measured, read, section_of};
ghost use Rattle.file.specs.Outcome.{first_entry, sized};

use crate::entry::Entry;
use crate::flaw::Flaw;

#[derive(Debug, Clone, Copy, PartialEq, Eq)]
pub(crate) enum Section {
    Tetrahedra,
    Triangles,
    Wires,
    Points,
    // the entries that are marked with this part
    Part(u8),
}

// The section of a number, from 1 on.
impl From<u8> for Section {
    ghost from_gives = { λ number section. section ≡ section_of number };

    fn from(number: u8) -> Section {
        match number {
            1 => Section::Tetrahedra,
            2 => Section::Triangles,
            3 => Section::Wires,
            4 => Section::Points,
            _ => Section::Part(number.saturating_sub(4)),
        }
    }
}

impl Section {
    // The entry that has these vertices.
    fn entry(self, bytes: &[u8]) -> Entry<'_>
        ensures { content result ≡ entry_in self bytes.now }
    {
        match self {
            Section::Tetrahedra => Entry::Tetrahedron(bytes),
            Section::Triangles => Entry::Triangle(bytes),
            Section::Wires => Entry::Wire(bytes),
            Section::Points => Entry::Point(bytes),
            Section::Part(part) => Entry::Marked(part, bytes),
        }
    }

    // How many vertices the first entry has, and the bytes from the first vertex on. An entry of a part begins with
    // their number.
    fn size(self, rest: &[u8]) -> Result<(usize, &[u8]), Flaw>
        ensures within { IfOk result (λ x. length x.1.now ≤ length rest.now) }
        ensures is { measured result ≡ sized self rest.now }
    {
        match self {
            Section::Tetrahedra => Ok((4, rest)),
            Section::Triangles => Ok((3, rest)),
            Section::Wires => Ok((2, rest)),
            Section::Points => Ok((1, rest)),
            Section::Part(_) => match rest {
                [] => Err(Flaw::Ends),
                [size @ 1..=4, more @ ..] => Ok((usize::from(*size), more)),
                _ => Err(Flaw::Vertices),
            },
        }
    }

    // The first entry, and the bytes after it.
    pub(crate) fn first(self, rest: &[u8]) -> Result<(Entry<'_>, &[u8]), Flaw>
        ensures within { IfOk result (λ x. length x.1.now ≤ length rest.now) }
        ensures is { read result ≡ first_entry self rest.now }
    {
        let (size, rest) = self.size(rest)?;
        let (bytes, after) = rest.split_at_checked(2 * size).ok_or(Flaw::Ends)?;
        Ok((self.entry(bytes), after))
    }
}
