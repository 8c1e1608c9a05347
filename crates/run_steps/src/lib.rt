// What a run of the definitions does, step by step: see specs/ for the steps, and proofs/ for that they leave out no
// report. There is no code here.
#![tactic(auto)]
