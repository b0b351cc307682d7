// Marking: which pages are held, each counted as it is visited. A walk answers the pages visited so far, or nothing where it met a page that is marked already.
#![tactic(auto)]

pub mod files;
pub mod pages;
pub mod roots;
pub mod run;
pub mod same;
pub mod volume;
