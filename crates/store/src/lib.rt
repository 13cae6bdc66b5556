// The store level: what a store of simplexes means, whatever holds it.
#![tactic(auto)]

pub mod lent;
pub mod meaning;
pub mod refusal;
pub mod walk;
