// The vertices of an entry, as a value that is copied.
ghost use Rattle.std.specs.Prelude.{◌≡◌, ◌≤◌, length, take};

use super::vertices;

// At most four numbers: the first `count` of these.
#[derive(Clone, Copy, Debug, PartialEq, Eq)]
pub struct Vertices {
    numbers: [u16; 4],
    count: usize,
    ghost room: { length numbers ≡ 4 },
    ghost few: { count ≤ 4 },
}

impl Vertices {
    ghost use Rattle.file.specs.Numbers.{pairs, listed};

    // The first four pairs of bytes; a last odd byte is passed over.
    pub fn of(bytes: &[u8]) -> Vertices
        ensures { listed result ≡ take 4 (pairs bytes.now) }
    {
        let read = vertices(bytes);
        let count = read.len();
        let mut numbers = [0; 4];
        numbers[..count].copy_from_slice(read.as_slice());
        Vertices { numbers, count }
    }

    // The numbers held.
    pub fn as_slice(&self) -> &[u16]
        ensures { result.now ≡ listed self.now }
    {
        &self.numbers[..self.count]
    }
}
