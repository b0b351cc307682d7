#![tactic(auto)]

// What follows from the book alone: theorems, in specs/. There is no code here.
