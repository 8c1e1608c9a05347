// What the answers to the two queries promise: see specs/. There is no code here.
#![tactic(auto)]
