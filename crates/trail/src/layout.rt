// How a record lies in the bytes.
ghost use Rattle.std.specs.Prelude.{◌≡◌, ◌+◌, ◌*◌, ◌<◌, ◌≤◌, ◌++◌, length, take, drop};
ghost use Rattle.trail.specs.Notes.{note, bytes_of_note, head_length, record_length};
ghost use Rattle.trail.specs.Decoding.{word, pairs_of};

use crate::head::Head;

// The bytes of a record before its pairs, and after them.
pub(crate) const HEAD: usize = 6;

pub(crate) const FOOT: usize = 2;

// The length of the record of s pairs. That s fits into the two bytes of its number is asked here and by `enclose`, and told by
// `head_at`: a narrower number or a ghost field in `Head` would ask more of who calls `commit`, which refuses too many pairs.
pub(crate) fn record_length(s: usize) -> usize
    requires { s < 65536 }
    ensures { result ≡ record_length s }
{
    HEAD + 2 * s + FOOT
}

// The sixteen-bit number at a place, the high byte first.
pub(crate) fn word_at(bytes: &[u8], at: usize) -> u16
    requires { at + 2 ≤ length bytes.now }
    ensures { result ≡ word (drop at bytes.now) }
{
    u16::from_be_bytes([bytes[at], bytes[at + 1]])
}

// The head that begins at a place.
pub(crate) fn head_at(bytes: &[u8], at: usize) -> Head
    requires { at + head_length ≤ length bytes.now }
    ensures u { result.u ≡ word (drop at bytes.now) }
    ensures v { result.v ≡ word (drop (at + 2) bytes.now) }
    ensures s { result.s ≡ word (drop (at + 4) bytes.now) }
    ensures few { result.s < 65536 }
{
    Head {
        u: word_at(bytes, at),
        v: word_at(bytes, at + 2),
        s: usize::from(word_at(bytes, at + 4)),
    }
}

// Writes a part over the bytes from a place on.
pub(crate) fn overwrite(bytes: &mut [u8], at: usize, part: &[u8])
    requires { at + length part.now ≤ length bytes.old }
    ensures { bytes.new ≡ take at bytes.old ++ (part.now ++ drop (at + length part.now) bytes.old) }
{
    bytes[at..at + part.len()].copy_from_slice(part);
}

// Writes head and foot around the pairs of a record that begins at a place.
pub(crate) fn enclose(bytes: &mut [u8], at: usize, head: Head)
    requires few { head.s < 65536 }
    requires room { at + record_length head.s ≤ length bytes.old }
    ensures { take (at + record_length head.s) bytes.new ≡ take at bytes.old ++ bytes_of_note (note head.u head.v (pairs_of (take (2 * head.s) (drop (at + head_length) bytes.old)))) }
{
    let [u_high, u_low] = head.u.to_be_bytes();
    let [v_high, v_low] = head.v.to_be_bytes();
    let [s_high, s_low] = (head.s as u16).to_be_bytes();
    overwrite(bytes, at, &[u_high, u_low, v_high, v_low, s_high, s_low]);
    overwrite(bytes, at + HEAD + 2 * head.s, &[s_high, s_low]);
}
