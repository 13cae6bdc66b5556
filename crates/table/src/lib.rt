// An ordered table over records that the caller lends, for every kind of key with an order.
#![tactic(auto)]

pub mod front;
pub mod rows;
mod search;
mod shift;
pub mod sorted;
