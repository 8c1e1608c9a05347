// C's precedence table against the definitions: see specs/ for the statement and proofs/ for the rest. There is no code
// here.
#![tactic(auto)]
