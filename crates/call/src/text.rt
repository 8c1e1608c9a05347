// The answer to a call over a text: that of its tokens, and how many token rows there are. The rows' buffer is left
// zero after them.
ghost use Rattle.std.specs.Prelude.{◌≡◌};
ghost use Rattle.call.specs.Text.{refused_text_with, rows_kept, rows_left};

use crate::buffer::clear;
use crate::{Answer, refused};
use layout::row::TOKEN_ROW;

#[repr(C)]
#[derive(Clone, Copy)]
pub struct TextAnswer {
    pub answer: Answer,
    pub token_count: usize,
}

// Refused before the parse.
pub fn refused_text(number: u32, place: usize) -> TextAnswer
    ensures { result ≡ refused_text_with number place }
{
    TextAnswer {
        answer: refused(number, place),
        token_count: 0,
    }
}

// After the parse, whose rows are the first so many numbers of the buffer: all of it is cleared if the parse was
// refused.
pub fn finish(a: Answer, tokens: &mut [u32], numbers: usize) -> TextAnswer
    ensures value { result ≡ rows_kept a numbers }
    ensures tokens_after { tokens.new ≡ rows_left a numbers tokens.old }
{
    let kept = if a.is_accepted() { numbers } else { 0 };
    clear(tokens, kept);
    TextAnswer {
        answer: a,
        token_count: kept / TOKEN_ROW,
    }
}
