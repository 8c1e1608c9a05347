// A call's answer, in the documents' numbers. Beside it: what is checked before the parse, and what is done after it;
// the answers to a call over a text and to a query.
#![tactic(auto)]

pub mod buffer;
pub mod check_input;
pub mod lent;
pub mod list;
pub mod outcome;
pub mod text;

ghost use Rattle.std.specs.Prelude.{◌≡◌, eqb};
ghost use Rattle.call.specs.Ended.{refused_with, accepted_with};

// The cause, or 0 for an accepted call; its place; and how many tree rows, lexical errors, reports and expectations
// were written.
#[repr(C)]
#[derive(Clone, Copy)]
pub struct Answer {
    pub number: u32,
    pub place: usize,
    pub tree_count: usize,
    pub error_count: usize,
    pub report_count: usize,
    pub expectation_count: usize,
}

impl Answer {
    pub fn is_accepted(&self) -> bool
        ensures { result ≡ eqb self.now.number 0 }
    {
        self.number == 0
    }
}

// A refused call's counts are 0.
pub fn refused(number: u32, place: usize) -> Answer
    ensures { result ≡ refused_with number place }
{
    Answer {
        number,
        place,
        tree_count: 0,
        error_count: 0,
        report_count: 0,
        expectation_count: 0,
    }
}

pub fn accepted(
    tree_count: u32,
    error_count: u32,
    report_count: usize,
    expectation_count: usize,
) -> Answer
    ensures { result ≡ accepted_with tree_count error_count report_count expectation_count }
{
    Answer {
        number: 0,
        place: 0,
        tree_count: tree_count as usize,
        error_count: error_count as usize,
        report_count,
        expectation_count,
    }
}
