// Lexical errors: a row for each error token, in order. The Rust collects them while it makes leaves; all tokens become
// leaves, so a pass of its own over the tokens finds the same.
ghost use Rattle.std.specs.Prelude.{◌≡◌, ◌*◌, leb};
ghost use Rattle.definitions.specs.Layout.{ERROR_ROW};
ghost use Rattle.sink_tokens.specs.Tokens.{log, logged, errors_on};

use layout::row::{ERROR_ROW, TOKEN_ROW};
use layout::token_kind::FIRST_LEX_ERROR;
use layout::{rows, word};

// Whether so many rows fit.
pub fn errors_fit(len: usize, rows: u32) -> bool
    ensures { result ≡ leb (rows * ERROR_ROW) len }
{
    rows::rows_fit::<ERROR_ROW>(len, rows)
}

// The number of rows after a token, with one for it if it is an error token. Nothing is written where that does not
// fit.
#[tactic(auto, unfolding(crate::specs::Tokens::logged))]
fn log_token(errors: &mut [u32], found: u32, kind: u32, start: u32, end: u32) -> u32
    ensures { log result errors.new
        ≡ logged kind start end (log found errors.old) }
{
    if kind < FIRST_LEX_ERROR {
        return found;
    }
    rows::set_row(errors, found as usize, [kind, start, end]);
    word::add(found, 1)
}

// How many lexical errors there are, including those that did not fit.
pub fn lexical_errors(tokens: &[u32], errors: &mut [u32]) -> u32
    ensures { log result errors.new
        ≡ errors_on tokens.now errors.old }
{
    let mut byte = 0;
    let mut found = 0;
    for [kind, length] in tokens.as_chunks::<TOKEN_ROW>().0 {
        let end = word::add(byte, *length);
        found = log_token(errors, found, *kind, byte, end);
        byte = end;
    }
    found
}
