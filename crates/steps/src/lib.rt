// The changes that touch few words, on an image that is known to be sound. All reads are done before the first write.
#![tactic(auto)]

pub mod counts;
pub mod format;
pub mod opens;
pub mod users;
pub mod write;
