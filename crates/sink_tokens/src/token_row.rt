// Token rows, as the sink reads them: a kind and a length in bytes each.
ghost use Rattle.std.specs.Prelude.{◌≡◌, ◌-◌, ◌/◌, ◌≤◌, length};
ghost use Rattle.definitions.specs.Layout.{TOKEN_ROW};
ghost use Rattle.sink_tokens.specs.Tokens.{kind_seen, trivia_here, widthN};

use layout::row::{TOKEN_LENGTH, TOKEN_ROW};
use layout::rows::row_at;
use layout::token_kind::FIRST_LEX_ERROR;
use layout::{row_kind, word};

// An error token's leaf is Unrecognized.
#[tactic(auto, unfolding(crate::specs::Tokens::kind_seen))]
pub fn leaf_kind(kind: u32) -> u32
    ensures { result ≡ kind_seen kind }
{
    if kind < FIRST_LEX_ERROR {
        kind
    } else {
        row_kind::UNRECOGNIZED
    }
}

// Whether the raw token at an index is trivia.
#[tactic(auto, unfolding(crate::specs::Tokens::trivia_here))]
pub fn trivia_at(tokens: &[u32], at: usize) -> bool
    ensures { result ≡ trivia_here tokens.now at }
{
    row_at::<TOKEN_ROW>(tokens, at).is_some_and(|token| row_kind::is_trivia(token[0]))
}

// The bytes of n raw tokens.
pub fn width_of(tokens: &[u32], from: usize, n: usize) -> u32
    requires { n ≤ length tokens.now / TOKEN_ROW - from }
    ensures { result ≡ widthN n tokens.now from 0 }
{
    let mut sum = 0;
    for at in from..from + n {
        sum = word::add(sum, tokens[at * TOKEN_ROW + TOKEN_LENGTH]);
    }
    sum
}
