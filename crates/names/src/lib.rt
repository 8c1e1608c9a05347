// The grammar's own matchers of grammar.rs: names that may be macros, unit addresses and references. No open call can
// be under any of these.
#![tactic(auto)]

pub mod macro_substitutable_name;
pub mod reference;
pub mod unit_address;
