// The calls of crate edge for C, each with the promise that it has there: a static library, since a crate is that or a library.
// host/include/nord.h declares them. A slice crosses as its pointer and its length.
#![tactic(auto)]

pub mod ask;
pub mod change;
pub mod many;
pub mod mend;
