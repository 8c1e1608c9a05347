// Kinds as token rows and leaves have them, at 32 bits: those that rows are compared with, and `is_trivia`.
ghost use Rattle.std.specs.Prelude.{◌≡◌};
ghost use Rattle.definitions.specs.Token.{is_trivia};

use crate::token_kind;

pub const WHITESPACE: u32 = token_kind::WHITESPACE as u32;

pub const BLOCK_COMMENT: u32 = token_kind::BLOCK_COMMENT as u32;

pub const LINE_COMMENT: u32 = token_kind::LINE_COMMENT as u32;

pub const UNRECOGNIZED: u32 = token_kind::UNRECOGNIZED as u32;

pub const NAME: u32 = token_kind::NAME as u32;

// The last of `TokenKind`.
pub const QUESTION_MARK: u32 = token_kind::QUESTION_MARK as u32;

// `is_trivia` of lexer.rs; an error token never is.
pub fn is_trivia(kind: u32) -> bool
    ensures { result ≡ is_trivia kind }
{
    matches!(kind, WHITESPACE | LINE_COMMENT | BLOCK_COMMENT)
}
