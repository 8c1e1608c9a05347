// Document 02, 1/14: the reports of the strict setting. A Name directly under a DtLabel, or directly under a DtPhandle
// without an LCurly, is judged by its bytes. The Names are found in the events, since a tree that does not fit must not
// hide a report that does not fit.
#![tactic(auto)]

pub mod event;
pub mod judge;
pub mod node;
pub mod report;
pub mod rule;
pub mod run;
pub mod scan;
pub mod seat;
#[cfg(test)]
mod tests;
