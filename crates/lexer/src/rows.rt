// The rows of a text's tokens.
ghost use Rattle.std.specs.Prelude.{◌≡◌, ◌≤◌, ◌<◌, length};
ghost use Rattle.definitions.specs.Layout.{MOST_BYTES, TWO_TO_32};
ghost use Rattle.lexer.specs.Found.{put_row, Lexes};

use crate::directive;
use crate::token::token_at;
use layout::row::{TOKEN_LENGTH, TOKEN_ROW};
use lex_table::Automaton;

// A directive starts at this byte: cause 10.
#[derive(Clone, Copy, Debug, PartialEq, Eq)]
pub struct Directive {
    pub at: usize,
}

// A row is written if it fits.
fn put(rows: &mut [u32], index: usize, kind: u32, len: usize)
    requires { (index < TWO_TO_32) × (len < TWO_TO_32) }
    ensures { rows.new ≡ put_row rows.old index kind len }
{
    if index + TOKEN_LENGTH < rows.len() {
        rows[index] = kind;
        rows[index + TOKEN_LENGTH] = len as u32;
    }
}

// One pass, which counts the token numbers: the rows that fit are written, so a buffer without room is for counting.
pub fn lex(automaton: &Automaton, bytes: &[u8], rows: &mut [u32]) -> Result<usize, Directive>
    requires { length bytes.now ≤ MOST_BYTES }
    ensures { Lexes bytes.now rows.old rows.new result }
{
    let mut at: usize = 0;
    let mut index: usize = 0;
    while at < bytes.len() {
        if directive::starts_at(bytes, at) {
            return Err(Directive { at });
        }
        let token = token_at(automaton, bytes, at);
        put(rows, index, token.kind, token.end - at);
        at = token.end;
        index += TOKEN_ROW;
    }
    Ok(index)
}
