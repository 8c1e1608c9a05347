// Theorems about patterns: see specs/ for the statements and proofs/ for the rest. There is no code here.
#![tactic(auto)]
