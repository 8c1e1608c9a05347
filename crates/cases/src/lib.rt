// What the programs of the gate share and what needs nothing of the code that they run: a list of cases read from
// standard input, buffers to lend and what is left of them, numbers printed, and token rows of blanks.
#![tactic(auto)]

pub mod blanks;
pub mod lend;
pub mod list;
pub mod read;
pub mod scan;
pub mod show;
#[cfg(test)]
mod tests;
