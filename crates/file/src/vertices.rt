// The vertices of an entry, as numbers.
pub mod decode;

ghost use Rattle.std.specs.Prelude.{◌≡◌, take};
ghost use Rattle.file.specs.Numbers.{pairs};

use arrayvec::ArrayVec;
pub use decode::Vertices;

// The first four pairs of bytes, each the high byte first; a last odd byte is passed over.
pub fn vertices(bytes: &[u8]) -> ArrayVec<u16, 4>
    ensures { result.items ≡ take 4 (pairs bytes.now) }
{
    let mut numbers = ArrayVec::new();
    let (pairs, _) = bytes.as_chunks::<2>();
    for pair in pairs.iter().take(4) {
        numbers.push(u16::from_be_bytes(*pair));
    }
    numbers
}
