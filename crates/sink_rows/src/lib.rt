// The rows that the sink reads and writes, by number: event rows and tree rows.
#![tactic(auto)]

pub mod event_row;
pub mod tree_row;
