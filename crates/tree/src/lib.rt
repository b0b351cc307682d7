// The page at a position of a tree or run, and the entries on it: one way to read users, objects and files.
#![tactic(auto)]

pub mod block;
pub mod ends;
pub mod entry;
pub mod file;
pub mod root;
