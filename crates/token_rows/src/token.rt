// source.rs, the token rows: the kind of a row as a test sees it, the rows that are trivia, where a row ends.
ghost use Rattle.std.specs.Prelude.{◌≡◌, true, [], ◌∷◌, ◌+◌, ◌/◌, ◌≤◌, ◌<◌, length, drop, MatchOption};
ghost use Rattle.definitions.specs.Layout.{TOKEN_ROW};
ghost use Rattle.definitions.specs.Token.{tokens_of, one_of, first_in, past, seen};
ghost use Rattle.machine.specs.Machine.{Machine, with_cursor, skip, range_at};
ghost use Rattle.token_rows.specs.Tokens.{SEEN_AT_END, kind_of, token_of};

use layout::row::TOKEN_ROW;
use layout::row_kind::is_trivia;
use layout::rows::row_at;
use layout::token_kind::{FIRST_LEX_ERROR, UNRECOGNIZED};

// What is seen past the last token. An error token is seen as Unrecognized, so that no token is seen as this.
pub const SEEN_AT_END: u8 = FIRST_LEX_ERROR as u8;

// Whether a kind is in the set.
pub fn one_of(set: &[u8], kind: u8) -> bool
    ensures { result ≡ one_of set.now kind }
{
    set.contains(&kind)
}

// A token row.
#[derive(Clone, Copy)]
struct Token {
    kind: u32,
    len: u32,
}

impl Token {
    // Its kind as a test sees it: an error token is Unrecognized.
    #[tactic(auto, using(crate::proofs::Seen::seen_tests))]
    fn seen(self) -> u8
        ensures { result ≡ seen (token_of self) }
    {
        if self.kind < FIRST_LEX_ERROR {
            self.kind as u8
        } else {
            UNRECOGNIZED
        }
    }
}

// A row, if there are so many.
fn token_at(tokens: &[u32], at: usize) -> Option<Token>
    ensures inside { MatchOption result (length tokens.now / TOKEN_ROW ≤ at) (λ t. at < length tokens.now / TOKEN_ROW) }
    ensures value { MatchOption result (drop at (tokens_of tokens.now) ≡ [])
        (λ t. drop at (tokens_of tokens.now) ≡ token_of t ∷ drop (at + 1) (tokens_of tokens.now)) }
{
    let &[kind, len] = row_at::<TOKEN_ROW>(tokens, at)?;
    Some(Token { kind, len })
}

// The kind of a row as a test sees it: an error token is Unrecognized.
pub fn kind_at(tokens: &[u32], at: usize) -> u8
    ensures value { result ≡ kind_of (drop at (tokens_of tokens.now)) }
    ensures at_in_bounds { (result ≡ SEEN_AT_END → ⊥) → at < length tokens.now / TOKEN_ROW }
{
    token_at(tokens, at).map_or(SEEN_AT_END, |t| t.seen())
}

// Whether the row is of this kind.
pub fn is_at(tokens: &[u32], at: usize, kind: u8) -> bool
    ensures value { result ≡ first_in (kind ∷ []) (drop at (tokens_of tokens.now)) }
    ensures at_in_bounds { result ≡ true → at < length tokens.now / TOKEN_ROW }
{
    token_at(tokens, at).is_some_and(|t| kind == t.seen())
}

// Whether the row is of a kind in the set.
pub fn is_one_of_at(tokens: &[u32], at: usize, set: &[u8]) -> bool
    ensures value { result ≡ first_in set.now (drop at (tokens_of tokens.now)) }
    ensures at_in_bounds { result ≡ true → at < length tokens.now / TOKEN_ROW }
{
    token_at(tokens, at).is_some_and(|t| one_of(set, t.seen()))
}

// Whether the row after this one is of this kind.
pub fn is_next_at(tokens: &[u32], at: usize, kind: u8) -> bool
    ensures { result ≡ first_in (kind ∷ []) (past (drop at (tokens_of tokens.now))) }
{
    token_at(tokens, at).is_some() && is_at(tokens, at + 1, kind)
}

// Where the row that starts at this byte ends.
pub fn end_at(tokens: &[u32], at: usize, start: u32) -> u32
    ensures { (m : Machine) → m.byte ≡ start → result ≡ (range_at (drop at (tokens_of tokens.now)) m).to }
{
    token_at(tokens, at).map_or(start, |t| start.wrapping_add(t.len))
}

// A row and its first byte.
#[derive(Clone, Copy)]
pub struct Seat {
    pub at: usize,
    pub byte: u32,
}

// The first row from here on that is not trivia.
pub fn skip_trivia(tokens: &[u32], from: usize, start: u32) -> Seat
    ensures m_value { (m : Machine) → with_cursor result.at result.byte m
        ≡ skip (drop from (tokens_of tokens.now)) (with_cursor from start m) }
    ensures from_le_at { from ≤ result.at }
{
    let mut seat = Seat {
        at: from,
        byte: start,
    };
    while let Some(t) = token_at(tokens, seat.at)
        && is_trivia(t.kind)
    {
        seat.at += 1;
        seat.byte = seat.byte.wrapping_add(t.len);
    }
    seat
}
