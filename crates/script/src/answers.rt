// What the program answers, and how an answer is written.
ghost use Rattle.std.specs.Prelude.{◌≡◌, ◌++◌, Some, string_bytes, OnOk};
ghost use Rattle.script.specs.Text.{reply_text, refusal_text, line_of};

use crate::refusal::ScriptRefusal;
use file::entry::Site;
use file::refusal::FileRefusal;
use std::alloc::AllocError;
use std::fmt;

// What is said where nothing is refused: how many simplexes a load gave, or an Euler number.
#[derive(Debug, Clone, Copy, PartialEq, Eq)]
pub enum Reply {
    Loaded(usize),
    Euler(i32),
}

// An answer: a reply or a refusal.
pub type Answer = Result<Reply, ScriptRefusal>;

impl fmt::Display for Reply {
    ghost output = { λ reply. Some (reply_text reply) };

    fn fmt<W: fmt::Write>(&self, f: &mut fmt::Formatter<W>) -> fmt::Result {
        match self {
            Reply::Loaded(held) => write!(f, "loaded {held}"),
            Reply::Euler(value) => write!(f, "ok {value}"),
        }
    }
}

impl fmt::Display for ScriptRefusal {
    ghost output = { λ refusal. Some (refusal_text refusal) };

    fn fmt<W: fmt::Write>(&self, f: &mut fmt::Formatter<W>) -> fmt::Result {
        match self {
            ScriptRefusal::Load(FileRefusal::At(stopped)) => {
                let number = u8::from(stopped.cause);
                let Site {
                    section,
                    entry,
                    place,
                } = stopped.site;
                write!(f, "no {number} {section} {entry} {place}")
            }
            refusal => {
                let number = u8::from(*refusal);
                write!(f, "no {number}")
            }
        }
    }
}

// Writes an answer and the end of its line after what the text holds. `Result` has no `Display`, so the two kinds are
// told apart here.
pub fn push_line(text: &mut String, answer: &Answer) -> Result<(), AllocError>
    ensures { OnOk result (string_bytes text.new ≡ string_bytes text.old ++ line_of answer.now) }
{
    match answer {
        Ok(reply) => writeln!(text, "{reply}"),
        Err(refusal) => writeln!(text, "{refusal}"),
    }
}
