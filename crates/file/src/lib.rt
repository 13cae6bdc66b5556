// The file level: hands out the entries of a model file one after another, each with its own bytes of the file, up to the
// first flaw, and loads them into a draft.
#![tactic(auto)]

pub mod entry;
pub mod flaw;
pub mod law;
pub mod load;
pub mod reader;
pub mod refusal;
mod section;
pub mod vertices;
