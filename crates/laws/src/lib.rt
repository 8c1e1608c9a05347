// The laws of the definitions, which theorems and code proofs cite: see specs/ and proofs/. There is no code here.
#![tactic(auto)]
