// The calls of crate nord, and crate run's list of calls, as C has them: numbers and lent slices in, structs of numbers out. Crate edge_c exports each
// under its name.
#![tactic(auto, using(crate::proofs::Replies::replied, crate::proofs::Replies::held, crate::proofs::Replies::lies))]

pub mod ask;
pub mod change;
pub mod many;
pub mod mend;
pub mod spell;
