// Places among the raw tokens.
ghost use Rattle.std.specs.Prelude.{◌≡◌, drop};
ghost use Rattle.definitions.specs.Token.{tokens_of};
ghost use Rattle.labels.specs.Model.{passed, past_solid, solid_after};

use layout::row::TOKEN_ROW;
use layout::row_kind::is_trivia;
use token_rows::token;
use token_rows::token::Seat;

// Past n raw tokens, or those that are left.
pub fn pass(tokens: &[u32], from: Seat, n: usize) -> Seat
    ensures { result ≡ passed n (drop from.at (tokens_of tokens.now)) from }
{
    let mut seat = from;
    for _ in 0..n {
        if seat.at >= tokens.len() / TOKEN_ROW {
            break;
        }
        seat.byte = token::end_at(tokens, seat.at, seat.byte);
        seat.at += 1;
    }
    seat
}

// Past n raw tokens that are not trivia.
fn pass_solid(tokens: &[u32], from: Seat, n: usize) -> Seat
    ensures { result ≡ past_solid n (drop from.at (tokens_of tokens.now)) from }
{
    let mut seat = from;
    let mut left = n;
    while left > 0 && seat.at < tokens.len() / TOKEN_ROW {
        if !is_trivia(tokens[seat.at * TOKEN_ROW]) {
            left -= 1;
        }
        seat.byte = token::end_at(tokens, seat.at, seat.byte);
        seat.at += 1;
    }
    seat
}

// The same, and past the trivia after them.
pub fn solid_after(tokens: &[u32], from: Seat, n: usize) -> Seat
    ensures { result ≡ solid_after n (tokens_of tokens.now) from }
{
    let seat = pass_solid(tokens, from, n);
    token::skip_trivia(tokens, seat.at, seat.byte)
}
