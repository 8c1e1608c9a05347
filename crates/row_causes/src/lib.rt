// The refusals of token rows of 4/14 beside the one that was before them: see specs/ for the statements and proofs/ for
// the rest. There is no code here.
#![tactic(auto)]
