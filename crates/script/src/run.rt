// The run of a whole script: what the program prints.
ghost use Rattle.std.specs.Prelude.{◌≡◌, ◌++◌, IfOk, string_bytes, OnOk};
ghost use Rattle.script.specs.Lines.{lines};
ghost use Rattle.script.specs.Transcript.{answer_of, replies, transcript_from, transcript_of};

use crate::answers::{Answer, Reply, push_line};
use crate::lines::{Command, Lines};
use file::load::load;
use model::stages::{Draft, Working};
use order::record::Record;
use simplex::simplex::Simplex;
use std::alloc::{AllocError, Global};
use store::meaning::Store;
use table_store::records::TableStore;

// The records of the program's store.
const RECORDS: usize = 4000;

// The answer to one line.
fn answer_to<S: Store>(working: &Working<S>, line: &[u8]) -> Answer
    ensures { result ≡ answer_of (S.Store.contents working.now.store) line.now }
{
    match Command::try_from(line)? {
        Command::Euler(part) => Ok(Reply::Euler(working.euler(part)?)),
    }
}

// Writes the answer to each line of the script, in order, after what the text holds.
fn push_replies<S: Store>(
    text: &mut String,
    working: &Working<S>,
    script: &[u8],
) -> Result<(), AllocError>
    ensures { OnOk result (string_bytes text.new ≡ string_bytes text.old ++ replies (answer_of (S.Store.contents working.now.store)) (lines script.now)) }
{
    for line in Lines::of(script) {
        push_line(text, &answer_to(working, line))?;
    }
    Ok(())
}

// All that is printed for a file and a script, over an empty draft of any store.
pub fn transcript_over<S: Store + Drop>(
    heap: Global,
    mut draft: Draft<S>,
    file: &[u8],
    script: &[u8],
) -> Result<String, AllocError>
    ensures { IfOk result (λ s. string_bytes s ≡ transcript_from (S.Store.contents draft.store) file.now script.now) }
{
    let mut text = String::new(heap);
    match load(&mut draft, file) {
        Ok(held) => {
            push_line(&mut text, &Ok(Reply::Loaded(held)))?;
            push_replies(&mut text, &draft.close(), script)?;
        }
        Err(refusal) => push_line(&mut text, &Err(refusal.into()))?,
    }
    Ok(text)
}

// All that the program prints for a file and a script. Fixed memory: its store lies in an array of records.
pub fn transcript(heap: Global, file: &[u8], script: &[u8]) -> Result<String, AllocError>
    ensures { IfOk result (λ s. string_bytes s ≡ transcript_of file.now script.now) }
{
    let mut records = [Record {
        key: Simplex::point(0),
        value: 0,
    }; RECORDS];
    let mut store = TableStore::open(&mut records);
    transcript_over(heap, Draft::open(&mut store), file, script)
}
