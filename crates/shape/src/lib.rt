// Rule 7, the shapes of files, and rule 10, the counts.
#![tactic(auto)]

pub mod block;
pub mod counts;
pub mod file;
mod plain;
pub mod rule10;
pub mod rule7;
pub mod tally;
