// The table store: simplexes with their masks in an ordered table over records that the caller lends.
#![tactic(auto)]

pub mod records;
