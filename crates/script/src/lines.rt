// The lines of a script, and the command that a line says.
ghost use Rattle.std.specs.Prelude.{◌≡◌};
ghost use Rattle.std.specs.Iterator.{YieldsFirstRef, item_count};
ghost use Rattle.std.specs.Option.{option_map};
ghost use Rattle.std.specs.Result.{result_ok};
ghost use Rattle.script.specs.Line.{upto, from, number_of, next_number, alone, letter_command, Reads};
ghost use Rattle.script.specs.Lines.{first_line, lines, Lined, Leads};

use std::marker::Model;

// The limits of a line: how many bytes it may have, and how many digits a number.
const LINE_LIMIT: usize = 64;

const DIGIT_LIMIT: usize = 5;

// What a line asks: the Euler number of a part.
#[derive(Debug, Clone, Copy, PartialEq, Eq)]
pub enum Command {
    Euler(u16),
}

// The line says no command.
#[derive(Debug, Clone, Copy, PartialEq, Eq)]
pub struct UnreadableLine;

// The bytes before the first `end`, and those from it on.
fn cut(bytes: &[u8], end: u8) -> (&[u8], &[u8])
    ensures front { result.0.now ≡ upto end bytes.now }
    ensures back { result.1.now ≡ from end bytes.now }
{
    let at = bytes.iter().position(|&b| b == end);
    bytes.split_at(at.unwrap_or(bytes.len()))
}

// A decimal number of one to five digits, at most 65,535. This and the next three say what is read, if anything is;
// that nothing is becomes an error at one place, in `try_from`.
fn number(digits: &[u8]) -> Option<u16>
    ensures { result ≡ number_of digits.now }
{
    if digits.is_empty() || digits.len() > DIGIT_LIMIT {
        return None;
    }
    let mut n = 0u32;
    for digit in digits {
        n = n * 10 + char::from(*digit).to_digit(10)?;
    }
    u16::try_from(n).ok()
}

// A space and a number, and what stands after it.
fn next_number(bytes: &[u8]) -> Option<(u16, &[u8])>
    ensures { option_map (λ p. (p.0, p.1.now)) result ≡ next_number bytes.now }
{
    match bytes {
        [b' ', rest @ ..] => {
            let (digits, after) = cut(rest, b' ');
            Some((number(digits)?, after))
        }
        _ => None,
    }
}

// A space and a number, and nothing after it.
fn lone_number(bytes: &[u8]) -> Option<u16>
    ensures { result ≡ alone (next_number bytes.now) }
{
    let (n, after) = next_number(bytes)?;
    if after.is_empty() { Some(n) } else { None }
}

// The command of a letter and what stands after it.
fn letter_command(letter: char, bytes: &[u8]) -> Option<Command>
    ensures { result ≡ letter_command letter bytes.now }
{
    match letter {
        'e' => Some(Command::Euler(lone_number(bytes)?)),
        _ => None,
    }
}

// The command that a line says, if it is readable.
impl<'a> TryFrom<&'a [u8]> for Command {
    type Error = UnreadableLine;

    ghost try_from_gives = { λ line r. Reads line.now (result_ok r) };

    fn try_from(line: &'a [u8]) -> Result<Command, UnreadableLine> {
        match line {
            [letter, rest @ ..] if rest.len() < LINE_LIMIT => {
                letter_command(char::from(*letter), rest).ok_or(UnreadableLine)
            }
            _ => Err(UnreadableLine),
        }
    }
}

// The first line of a script without its end, and what follows that end.
pub fn next_line(script: &[u8]) -> Option<(&[u8], &[u8])>
    ensures value { option_map (λ p. (p.0.now, p.1.now)) result ≡ first_line script.now }
    ensures leads { Leads result script.now }
    ensures law { Lined script.now (lines script.now) }
{
    if script.is_empty() {
        return None;
    }
    let (line, after) = cut(script, b'\n');
    match after {
        [_, rest @ ..] => Some((line, rest)),
        [] => Some((line, after)),
    }
}

// The lines of the part of a script that is still to be read.
#[derive(Drop)]
pub struct Lines<'a> {
    script: &'a [u8],
}

impl<'a> Model for Lines<'a> {
    ghost use Rattle.std.specs.Prelude.{List, ℕ};
    ghost use Rattle.script.specs.Lines.{lines};

    ghost Value = { List (List ℕ) };

    ghost view = { λ l. lines l.script.now };
}

impl<'a> Lines<'a> {
    // The lines of a script.
    pub fn of(script: &'a [u8]) -> Lines<'a>
        ensures value { result ≡ lines script.now }
        ensures law { Lined script.now result }
    {
        Lines { script }
    }
}

impl<'a> Iterator for Lines<'a> {
    type Item = &'a [u8];

    ghost next_gives = { YieldsFirstRef (λ l. l) };

    ghost remaining = { item_count (λ l. l) };

    fn next(&mut self) -> Option<&'a [u8]> {
        let (line, rest) = next_line(self.script)?;
        self.script = rest;
        Some(line)
    }
}
