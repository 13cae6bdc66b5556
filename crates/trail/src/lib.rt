// The trail of a model: a record of each collapse that can still be undone.
#![tactic(auto)]

pub mod head;
pub mod law;
mod layout;
pub mod refusal;
pub mod trail;
mod walk;
