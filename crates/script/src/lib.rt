// Scripts: their lines, the answers to them as text, and the run of the program.
#![tactic(auto)]

pub mod answers;
pub mod lines;
pub mod program;
pub mod refusal;
pub mod run;
