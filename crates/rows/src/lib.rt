// Laws about the rows that a call writes: see specs/ and proofs/. There is no code here.
#![tactic(auto)]
