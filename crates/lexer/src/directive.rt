// Cause 10: a directive of the preprocessor at a token's start.
ghost use Rattle.std.specs.Prelude.{◌≡◌, ◌<◌, length, drop};
ghost use Rattle.definitions.specs.Text.{after_blanks, begins_with_one, directive_words, is_directive};

// After "any spaces or tabs".
fn after_blanks(text: &[u8]) -> &[u8]
    ensures { result.now ≡ after_blanks text.now }
{
    let blanks = text
        .iter()
        .position(|b| *b != b' ' && *b != b'\t')
        .unwrap_or(text.len());
    &text[blanks..]
}

const E_WORDS: [&[u8]; 4] = [b"elif", b"else", b"endif", b"error"];

// By the first letter, since most names that follow a `#` are no such words.
fn begins_with_one(text: &[u8]) -> bool
    ensures { result ≡ begins_with_one directive_words text.now }
{
    let [first, ..] = text else {
        return false;
    };
    match *first {
        b'd' => text.starts_with(b"define"),
        b'e' => E_WORDS.iter().any(|word| text.starts_with(word)),
        b'i' => text.starts_with(b"if") || text.starts_with(b"include"),
        b'p' => text.starts_with(b"pragma"),
        b'u' => text.starts_with(b"undef"),
        _ => false,
    }
}

// Whether one starts at a byte.
pub fn starts_at(bytes: &[u8], at: usize) -> bool
    requires { at < length bytes.now }
    ensures { result ≡ is_directive (drop at bytes.now) }
{
    bytes[at] == b'#' && begins_with_one(after_blanks(&bytes[at + 1..]))
}
