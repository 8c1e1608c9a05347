// The parser that the grammar is written over: parser/mod.rs. It reads lent token rows, and writes event rows, report
// rows and expectations into lent buffers.
#![tactic(auto)]

pub mod check;
pub mod errors;
pub mod event;
pub mod marker;
pub mod matcher;
pub mod numbers;
pub mod pending;
pub mod source;

ghost use Rattle.std.specs.Prelude.{◌≡◌};
ghost use Rattle.definitions.specs.Run.{truth};
ghost use Rattle.parser.specs.View.{ans_of};

use crate::pending::Pending;
use layout::{ByteOffset, TokenIndex};

// The first of refusals 5 to 7, or 0; and the mark at that moment.
#[derive(Clone, Copy)]
pub struct Refused {
    pub number: u32,
    pub place: TokenIndex,
}

pub const NOTHING_REFUSED: Refused = Refused {
    number: 0,
    place: TokenIndex(0),
};

#[derive(Drop)]
pub struct Parser<'a> {
    pub tokens: &'a [u32],
    // The buffers, and how many numbers of each are written.
    pub events: &'a mut [u32],
    pub events_written: usize,
    pub reports: &'a mut [u32],
    pub reports_written: usize,
    pub pool: &'a mut [u32],
    pub pool_written: usize,
    // The token that is read next, and its first byte.
    pub cursor: TokenIndex,
    pub byte: ByteOffset,
    // The mark of document 01, the index just past the last token taken; and that token's end.
    pub mark: TokenIndex,
    pub mark_byte: ByteOffset,
    // The expectations pushed since the last token or name was taken.
    pub pending: Pending,
    pub refused: Refused,
}

// What a function of the grammar answers where yes and no are not enough.
#[derive(Clone, Copy, PartialEq, Eq)]
pub enum Ans {
    No,
    Yes,
    Also,
    Again,
}

impl From<bool> for Ans {
    ghost from_gives = { λ yes ans. ans_of ans ≡ truth yes };

    fn from(yes: bool) -> Ans {
        if yes { Ans::Yes } else { Ans::No }
    }
}
