// Where an LParen stands in the tree: see specs/ for the statements and proofs/ for the rest. There is no code here.
#![tactic(auto)]
