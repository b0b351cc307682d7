// Where an image is broken: the first place that breaks a rule, for refusal 3. Each rule has its finder, which is asked only after the rule was judged broken;
// it answers the first place that does not hold, or None where all do.
// Rows are gone through by `for`: by `find_map` the goal over the library's run of the range did not close (tried in counts).
#![tactic(auto)]

mod block;
pub mod counts;
mod entry;
pub mod file;
pub mod files;
pub mod held;
pub mod index;
pub mod master;
mod meet;
mod named;
pub mod objects;
pub mod reserved;
pub mod tell;
pub mod users;
