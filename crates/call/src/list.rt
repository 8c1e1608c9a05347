// The answer to a query: that of the parse, and how many row numbers are on the list.
use crate::Answer;

#[repr(C)]
#[derive(Clone, Copy)]
pub struct ListAnswer {
    pub answer: Answer,
    pub list_count: usize,
}
