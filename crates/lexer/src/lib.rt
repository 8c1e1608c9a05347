// The lexer: the longest match of the rules, by the automaton of crates/lex_table, and the callbacks after it; the rows
// of a text's tokens; what a text is refused for.
#![tactic(auto)]

pub mod check;
mod directive;
mod ends;
mod high_byte;
mod longest;
pub mod read;
pub mod rows;
mod token;
