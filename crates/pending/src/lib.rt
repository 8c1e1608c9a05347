// Each expectation once: the run compared with the run as it was before. See specs/ for the statement and proofs/ for
// the rest. There is no code here.
#![tactic(auto)]
