// What the parser and the sink leave, cleared, is what `definitions` says of the whole call: see specs/Ends.antt. There
// is no code here.
#![tactic(auto)]
