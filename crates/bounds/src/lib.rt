// No run makes more than a small multiple of its tokens, of anything: see specs/Numbers.antt. There is no code here.
#![tactic(auto)]
