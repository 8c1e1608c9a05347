// The third promise: see specs/. There is no code here.
#![tactic(auto)]
