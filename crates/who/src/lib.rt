// The holders of a page in their order: kind, user, file, position. One search finds the first from a turn on: a page of a sound image has one
// holder at most, and one that is held twice has a first and a second.
#![tactic(auto)]

pub mod blocks;
pub mod files;
pub mod kinds;
pub mod roots;
pub mod tell;

// A kind and a class stay numbers: they are digits of a turn, and `turn_by`, `kind_page` and `class_page` in specs/ count by them.
// The positions of a root, the turns of a kind, the first turns of the files' blocks and of their data pages.
pub const POSITIONS: usize = 262144;

pub const TURNS: usize = 17179869184;

pub const BLOCK_TURNS: usize = 137438953472;

pub const DATA_TURNS: usize = 171798691840;
