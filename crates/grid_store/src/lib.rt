// The grid store: one byte of the caller's memory for each possible simplex with vertices below 32.
#![tactic(auto)]

pub mod grid;
pub mod places;
