// Keys that have an order, and records of a key and its value.
#![tactic(auto)]

pub mod keys;
pub mod record;
