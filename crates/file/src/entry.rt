// An entry of the file, with its vertices as the file has them.
ghost use Rattle.std.specs.Prelude.{◌≡◌};
ghost use Rattle.file.specs.Entry.{content, vertex_bytes};

#[derive(Debug, Clone, Copy, PartialEq, Eq)]
pub enum Entry<'a> {
    Tetrahedron(&'a [u8]),
    Triangle(&'a [u8]),
    Wire(&'a [u8]),
    Point(&'a [u8]),
    // with the part, 1 to 7; it is a number, since `mark` takes a number and judges it
    Marked(u8, &'a [u8]),
}

// Where an entry or a count stands: the section from 1, the entry from 0, and the first byte's place in the file.
// The section is a number, since that is what is printed.
#[derive(Debug, Clone, Copy, PartialEq, Eq)]
pub struct Site {
    pub section: u8,
    pub entry: u16,
    pub place: usize,
}

// An entry and where it stands.
#[derive(Debug, Clone, Copy, PartialEq, Eq)]
pub struct Placed<'a> {
    pub site: Site,
    pub entry: Entry<'a>,
}

impl<'a> Entry<'a> {
    // The bytes of the vertices.
    pub fn bytes(&self) -> &'a [u8]
        ensures { result.now ≡ vertex_bytes (content self.now) }
    {
        match *self {
            Entry::Tetrahedron(bytes)
            | Entry::Triangle(bytes)
            | Entry::Wire(bytes)
            | Entry::Point(bytes)
            | Entry::Marked(_, bytes) => bytes,
        }
    }
}
