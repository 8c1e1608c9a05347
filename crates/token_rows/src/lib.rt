// What the parser reads of token rows, and whether numbers fit a lent buffer: plain functions under crates/parser.
#![tactic(auto)]

pub mod fit;
pub mod token;
