// What is known at each step of a run: an analysis that the checker computes on the grammar. See proofs/Lib.antt. There
// is no code here.
#![tactic(auto)]
