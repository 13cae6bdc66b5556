// Simplexes: one to four vertices in strictly rising order.
#![tactic(auto)]

pub mod shape;
pub mod simplex;
