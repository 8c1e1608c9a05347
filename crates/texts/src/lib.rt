// Theorems about calls over texts: see specs/ for the statements and proofs/ for the rest. There is no code here.
#![tactic(auto)]
