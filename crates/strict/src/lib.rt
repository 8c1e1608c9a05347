// The strict setting of 1/14 beside the old one: see specs/ for the statements and proofs/ for the rest. There is no
// code here.
#![tactic(auto)]
