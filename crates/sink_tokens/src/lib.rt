// Token rows as the sink reads them, and the rows of the lexical errors among them.
#![tactic(auto)]

pub mod lexical;
pub mod token_row;
