// Where things end, of grammar.rs: lists of cells and values, items, nodes, and the tokens that an entry leaves over.
#![tactic(auto)]

pub mod lists;
pub mod nodes;
