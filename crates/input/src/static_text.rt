// The fixed spellings of token kinds: `static_text` of lexer.rs.
ghost use Rattle.std.specs.Prelude.{◌≡◌, MatchOption};
ghost use Rattle.definitions.specs.StaticText.{static_texts, fits_text};
ghost use Rattle.input.specs.Checks.{spelling};

use layout::token_kind;

// The spelling of a kind that has one.
#[tactic(auto, unfolding(crate::specs::Checks::spelling))]
pub fn static_text(kind: u8) -> Option<&'static [u8]>
    ensures { MatchOption result (spelling static_texts kind ≡ None)
        (λ text. spelling static_texts kind ≡ Some text.now) }
{
    let text: &'static [u8] = match kind {
        token_kind::COMMA => b",",
        token_kind::BITS_DIRECTIVE => b"/bits/",
        token_kind::OMIT_IF_NO_REF_DIRECTIVE => b"/omit-if-no-ref/",
        token_kind::DT_INCLUDE_DIRECTIVE => b"/include/",
        token_kind::MEMRESERVE_DIRECTIVE => b"/memreserve/",
        token_kind::DELETE_NODE_DIRECTIVE => b"/delete-node/",
        token_kind::DELETE_PROPERTY_DIRECTIVE => b"/delete-property/",
        token_kind::V1_DIRECTIVE => b"/dts-v1/",
        token_kind::PLUGIN_DIRECTIVE => b"/plugin/",
        token_kind::EQUALS => b"=",
        token_kind::SEMICOLON => b";",
        token_kind::AMPERSAND => b"&",
        token_kind::COLON => b":",
        token_kind::AT_SIGN => b"@",
        token_kind::LCURLY => b"{",
        token_kind::RCURLY => b"}",
        token_kind::LANGLE => b"<",
        token_kind::RANGLE => b">",
        token_kind::LPAREN => b"(",
        token_kind::RPAREN => b")",
        token_kind::PLUS => b"+",
        token_kind::MINUS => b"-",
        token_kind::ASTERISK => b"*",
        token_kind::SLASH => b"/",
        token_kind::MODULO => b"%",
        token_kind::BITWISE_OR => b"|",
        token_kind::BITWISE_XOR => b"^",
        token_kind::BITWISE_NOT => b"~",
        token_kind::BITWISE_SHL => b"<<",
        token_kind::BITWISE_SHR => b">>",
        token_kind::LOGICAL_AND => b"&&",
        token_kind::LOGICAL_OR => b"||",
        token_kind::LOGICAL_NOT => b"!",
        token_kind::RELATIONAL_LT_EQ => b"<=",
        token_kind::RELATIONAL_GT_EQ => b">=",
        token_kind::RELATIONAL_EQ => b"==",
        token_kind::RELATIONAL_NEQ => b"!=",
        token_kind::QUESTION_MARK => b"?",
        _ => return None,
    };
    Some(text)
}

// Whether a token of this kind may have these bytes.
pub fn is_spelled(kind: u32, text: &[u8]) -> bool
    ensures { result ≡ fits_text static_texts kind text.now }
{
    let Ok(kind) = u8::try_from(kind) else {
        return true;
    };
    static_text(kind).is_none_or(|spelling| spelling == text)
}
