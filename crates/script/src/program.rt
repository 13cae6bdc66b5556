// The program: it reads model.bin and standard input, and prints what the run gives.
ghost use Rattle.std.specs.Prelude.{◌≤◌, length, IfOk};

use crate::run::transcript;
use std::fs::File;
use std::io;
use std::io::{ErrorKind, Read};

// The bytes of the file and of the input that are read at most.
const MOST: usize = 65536;

// Reads up to the end of the input or of the buffer, and answers what was read.
fn fill<'a, R: Read>(input: &mut R, buffer: &'a mut [u8]) -> io::Result<&'a [u8]>
    ensures { IfOk result (λ read. length read.now ≤ length buffer.old) }
{
    let most = buffer.len();
    let mut left = &mut *buffer;
    while !left.is_empty() {
        let n = input.read(left)?;
        if n == 0 {
            break;
        }
        let (_, rest) = left.split_at_mut(n);
        left = rest;
    }
    let unread = left.len();
    Ok(&buffer[..most - unread])
}

// Reads model.bin; an absent file reads as empty.
fn fill_from_file<'a>(rt: &HostRuntime, buffer: &'a mut [u8]) -> io::Result<&'a [u8]>
    ensures { IfOk result (λ read. length read.now ≤ length buffer.old) }
{
    match File::open(rt, "model.bin") {
        Ok(mut file) => fill(&mut file, buffer),
        Err(e) if e.kind() == ErrorKind::NotFound => Ok(&[]),
        Err(e) => Err(e),
    }
}

// The whole program. Fixed memory: the file and the script are read into two arrays.
pub fn start(rt: &HostRuntime) -> io::Result<()> {
    let mut file = [0u8; MOST];
    let file = fill_from_file(rt, &mut file)?;
    let mut script = [0u8; MOST];
    let script = fill(&mut rt.stdin(), &mut script)?;
    let text = transcript(rt.alloc(), file, script)?;
    rt.print(text)
}
