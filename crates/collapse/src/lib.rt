// The mathematics of collapse and split: each function stands for the theorem that its contract names.
#![tactic(auto)]

pub mod cases;
pub mod extended;
pub mod laws;
pub mod pieces;
