// The promises as theorems about the definitions, in one place: see specs/. There is no code here.
#![tactic(auto)]
