// The checks of a call's input: sizes (cause 2), token rows (3 and 11 to 13), and the fixed spellings of tokens (4).
#![tactic(auto)]

pub mod causes;
pub mod static_text;
