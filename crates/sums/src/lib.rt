#![tactic(auto)]

// Finite sums and searches over a function: definitions and laws, in specs/. There is no code here.
