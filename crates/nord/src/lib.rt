// The calls of document 01, each in two halves. The outer half goes through the gate, numbers 1 to 3; the open half has a ready image
// and right arguments, asks the call's own numbers in their order, and makes the step. With `known` the caller says that the image is
// whole and sound, and it is not judged again; with `known` false nothing is asked of the caller.
#![tactic(auto)]

mod args;
pub mod ask;
pub mod change;
pub mod enter;
pub mod files;
pub mod users;
