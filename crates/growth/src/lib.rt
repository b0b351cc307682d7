// Growing and shrinking an indexed file by one page, and deleting a file, on an image that is known to be sound. All that is needed is read before the first write.
#![tactic(auto)]

pub mod delete;
mod entries;
mod free;
pub mod grow;
pub mod shrink;
