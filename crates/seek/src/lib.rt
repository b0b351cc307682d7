// What calls look up on an image that is known to be sound: users, files, the pages that a step asks for, and the part of a page.
#![tactic(auto)]

pub mod files;
pub mod find;
pub mod free;
pub mod needs;
pub mod part;
pub mod positions;
pub mod users;
