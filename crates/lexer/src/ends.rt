// The callbacks: how many of the bytes after a match belong to its token, or none where the token has no end.
ghost use Rattle.std.specs.Prelude.{◌≡◌, false, ◌≤◌, length, IfSome};
ghost use Rattle.definitions.specs.Lex.{comment_end, quote_end, bracket_end};
ghost use Rattle.lexer.specs.Found.{end_of};

// `lex_block_comment`.
pub fn comment_end(rest: &[u8]) -> Option<usize>
    ensures found { end_of result ≡ comment_end rest.now }
    ensures inside { IfSome result (λ n. n ≤ length rest.now) }
{
    rest.windows(2)
        .position(|w| w[0] == b'*' && w[1] == b'/')
        .map(|n| n + 2)
}

// `lex_string`, `lex_char`.
pub fn quote_end(rest: &[u8], quote: u8) -> Option<usize>
    ensures found { end_of result ≡ quote_end quote false rest.now }
    ensures inside { IfSome result (λ n. n ≤ length rest.now) }
{
    let mut escaped = false;
    for (n, b) in rest.iter().enumerate() {
        if !escaped && *b == quote {
            return Some(n + 1);
        }
        escaped = !escaped && *b == b'\\';
    }
    None
}

// `lex_bytestring`.
pub fn bracket_end(rest: &[u8]) -> Option<usize>
    ensures found { end_of result ≡ bracket_end rest.now }
    ensures inside { IfSome result (λ n. n ≤ length rest.now) }
{
    rest.iter().position(|b| *b == b']').map(|n| n + 1)
}
