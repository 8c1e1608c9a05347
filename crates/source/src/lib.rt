// source.rs as the Rust has it: one value, `Source`, that holds the lent token rows and a cursor. The functions over it
// are few and short, since each is proved by hand: it takes the value apart and calls a function on token rows and a
// token index. `look` has these two as its parameters, so that its callers' proofs do not have to know `Source`. The
// parser's own cursor is a field of its state, beside the mark and the byte offsets, which a `Source` does not have.
#![tactic(auto)]

pub mod cursor;

ghost use Rattle.std.specs.Prelude.{◌≡◌, drop};
ghost use Rattle.definitions.specs.Token.{tokens_of};
ghost use Rattle.token_rows.specs.Tokens.{kind_of};
ghost use Rattle.source.specs.Cursor.{after_trivia, after_token, Seen};

use crate::cursor::{past_token, past_trivia};
use layout::TokenIndex;
use token_rows::token::kind_at;

#[derive(Clone, Copy)]
pub struct Source<'a> {
    pub tokens: &'a [u32],
    // The row that is read next.
    pub cursor: TokenIndex,
}

impl<'a> Source<'a> {
    pub fn new(tokens: &'a [u32], cursor: TokenIndex) -> Source<'a>
        ensures { (result.tokens ≡ tokens.entry) × (result.cursor ≡ cursor) }
    {
        Source { tokens, cursor }
    }

    // A peek moves the cursor past trivia: the `Source` after it.
    pub fn peek(self) -> Source<'a>
        ensures { (result.tokens ≡ self.entry.tokens)
            × (result.cursor.0 ≡ after_trivia (tokens_of self.entry.tokens.now) self.entry.cursor.0) }
    {
        let tokens = self.tokens;
        let cursor = past_trivia(tokens, self.cursor);
        Source { tokens, cursor }
    }

    // The kind at the cursor, trivia or not; past the last token, token_rows' SEEN_AT_END. Nothing moves.
    pub fn peek_kind_immediate(self) -> u8
        ensures { result ≡ kind_of (drop self.entry.cursor.0 (tokens_of self.entry.tokens.now)) }
    {
        kind_at(self.tokens, self.cursor.0)
    }

    // The `Source` past the first token that is not trivia.
    pub fn next_token(self) -> Source<'a>
        ensures { (result.tokens ≡ self.entry.tokens)
            × (result.cursor.0 ≡ after_token (tokens_of self.entry.tokens.now) self.entry.cursor.0) }
    {
        let tokens = self.tokens;
        let cursor = past_token(tokens, self.cursor);
        Source { tokens, cursor }
    }
}

// What is seen from a token index.
#[derive(Clone, Copy)]
pub struct Sight {
    // The kind of the token there.
    pub immediate: u8,
    // The kind past trivia, as every test but an immediate one sees it.
    pub kind: u8,
    // The index past the token of that kind.
    pub next: TokenIndex,
}

pub fn look(tokens: &[u32], at: TokenIndex) -> Sight
    ensures { Seen (tokens_of tokens.now) at.0 result.immediate result.kind result.next.0 }
{
    let s = Source::new(tokens, at);
    let next = s.next_token();
    Sight {
        immediate: s.peek_kind_immediate(),
        kind: s.peek().peek_kind_immediate(),
        next: next.cursor,
    }
}
