// The literal machine that the parser's code is held to, and the theorem that it does what `definitions` says: see
// specs/ and proofs/. There is no code here.
#![tactic(auto)]
