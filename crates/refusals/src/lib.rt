// Promise 1 as theorems about the definitions: which refusal, where and when, and what every buffer holds. There is no
// code here.
#![tactic(auto)]
