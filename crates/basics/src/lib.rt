// What the proofs of all crates share: see proofs/. There is no code here.
#![tactic(auto)]
