// Rules 1 to 6 of a sound image, each judged by a function of its own that may assume those it names.
#![tactic(auto)]

mod block;
pub mod master;
pub mod objects;
pub mod stamps;
pub mod stored;
pub mod twins;
pub mod users;
