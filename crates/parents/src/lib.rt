// Document 02, 7/14: what the parents in tree rows say. See specs/ for the statements and proofs/ for the rest. There
// is no code here.
#![tactic(auto)]
