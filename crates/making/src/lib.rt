// Creating users and files on an image that is known to be sound: system pages in the order written, then the entry.
#![tactic(auto)]

pub mod entry;
pub mod file;
pub mod place;
pub mod run;
pub mod user;
