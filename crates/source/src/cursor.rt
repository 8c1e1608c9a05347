// Token indexes that the parser's own moves of its cursor come to.
ghost use Rattle.std.specs.Prelude.{◌≡◌, drop};
ghost use Rattle.definitions.specs.Token.{tokens_of, drop_trivia, past};
ghost use Rattle.source.specs.Cursor.{after_trivia, after_token};

use layout::{ByteOffset, TokenIndex};
use parser::pending::Pending;
use parser::{NOTHING_REFUSED, Parser};

// A parser that has taken nothing and whose cursor is here. Moves of the cursor write nothing.
fn standing<'a>(
    tokens: &'a [u32],
    at: TokenIndex,
    events: &'a mut [u32],
    reports: &'a mut [u32],
    pool: &'a mut [u32],
) -> Parser<'a>
    ensures rows { result.tokens ≡ tokens.entry }
    ensures place { result.cursor ≡ at }
{
    Parser {
        tokens,
        events,
        events_written: 0,
        reports,
        reports_written: 0,
        pool,
        pool_written: 0,
        cursor: at,
        byte: ByteOffset(0),
        mark: TokenIndex(0),
        mark_byte: ByteOffset(0),
        pending: Pending::none(),
        refused: NOTHING_REFUSED,
    }
}

// The index of the first token from here on that is not trivia.
pub fn past_trivia(tokens: &[u32], at: TokenIndex) -> TokenIndex
    ensures result_value { result.0 ≡ after_trivia (tokens_of tokens.now) at.0 }
    ensures tokens_value { drop result.0 (tokens_of tokens.now)
        ≡ drop_trivia (drop at.0 (tokens_of tokens.now)) }
{
    let mut p = standing(tokens, at, &mut [], &mut [], &mut []);
    p.peek();
    p.cursor
}

// The index after that token; at the end it stays.
pub fn past_token(tokens: &[u32], at: TokenIndex) -> TokenIndex
    ensures result_value { result.0 ≡ after_token (tokens_of tokens.now) at.0 }
    ensures tokens_value { drop result.0 (tokens_of tokens.now)
        ≡ past (drop_trivia (drop at.0 (tokens_of tokens.now))) }
{
    let mut p = standing(tokens, at, &mut [], &mut [], &mut []);
    p.peek();
    p.next_token();
    p.cursor
}
