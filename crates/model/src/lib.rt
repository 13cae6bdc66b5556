// The model level: drafts and working models over every store, and what they can be asked.
#![tactic(auto)]

mod bases;
pub mod edits;
mod faces;
mod merges;
mod notes;
pub mod part;
mod plus;
pub mod questions;
pub mod refusal;
mod splits;
pub mod stages;
pub mod ties;
