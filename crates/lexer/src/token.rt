// The token that starts at a byte.
ghost use Rattle.std.specs.Prelude.{◌≡◌, ◌≤◌, ◌<◌, ℕ, length, Some, IfOk};
ghost use Rattle.definitions.specs.Lex.{finish};
ghost use Rattle.lex_table.specs.Callbacks.{said};
ghost use Rattle.lexer.specs.Found.{TokenHere, closed};

use crate::ends::{bracket_end, comment_end, quote_end};
use crate::longest::longest;
use layout::lex_error;
use lex_table::callback::{Callback, callback_of};
use lex_table::{Automaton, START};

// Its kind, and the byte after it.
#[derive(Clone, Copy)]
pub struct Tok {
    pub kind: u32,
    pub end: usize,
}

// After a match with a callback: how many more bytes the token has, or the kind of an error token up to the text's end.
fn call_back(callback: Callback, rest: &[u8]) -> Result<usize, u32>
    ensures found { (kind n : ℕ) → closed kind n rest.now result ≡ finish n kind (said (Some callback)) rest.now }
    ensures inside { IfOk result (λ n. n ≤ length rest.now) }
{
    match callback {
        Callback::BlockComment => {
            comment_end(rest).ok_or(lex_error::UNEXPECTED_END_BLOCK_COMMENT)
        }
        Callback::String => quote_end(rest, b'"').ok_or(lex_error::UNEXPECTED_END_STRING),
        Callback::Char => quote_end(rest, b'\'').ok_or(lex_error::UNEXPECTED_END_CHAR),
        Callback::Bytestring => bracket_end(rest).ok_or(lex_error::UNEXPECTED_END_BYTESTRING),
    }
}

pub fn token_at(automaton: &Automaton, bytes: &[u8], at: usize) -> Tok
    requires { at < length bytes.now }
    ensures { TokenHere bytes.now at result.kind result.end }
{
    let hit = longest(automaton, bytes, at);
    if hit.row == START {
        return Tok {
            kind: lex_error::DEFAULT,
            end: at + 1,
        };
    }
    let kind = u32::from(automaton.kind_of(hit.row));
    let Some(callback) = callback_of(hit.row) else {
        return Tok { kind, end: hit.end };
    };
    match call_back(callback, &bytes[hit.end..]) {
        Ok(n) => Tok {
            kind,
            end: hit.end + n,
        },
        Err(error) => Tok {
            kind: error,
            end: bytes.len(),
        },
    }
}
