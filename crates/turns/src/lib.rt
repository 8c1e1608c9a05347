// Clauses of the definitions that no run uses: see specs/ for the statement and proofs/ for the rest. There is no code
// here.
#![tactic(auto)]
