// One search for classes of joined nodes, for every kind of node that has an order.
#![tactic(auto)]

pub mod classes;
pub mod joining;
mod labels;
pub mod search;
