// The callbacks, by the states in which they are called.
ghost use Rattle.std.specs.Prelude.{◌≡◌, ◌*◌, ◌/◌};
ghost use Rattle.lex_table.specs.Matches.{callback_of};
ghost use Rattle.lex_table.specs.Callbacks.{said};

use crate::{BLOCK_COMMENT, CHAR, STRING};

#[derive(Clone, Copy, Debug, PartialEq, Eq)]
pub enum Callback {
    BlockComment,
    String,
    Char,
    Bytestring,
}

// That of a state, if it has one.
pub fn callback_of(row: usize) -> Option<Callback>
    requires { row / 256 * 256 ≡ row }
    ensures { said result ≡ callback_of (row / 256) }
{
    if row < BLOCK_COMMENT {
        return None;
    }
    match row {
        BLOCK_COMMENT => Some(Callback::BlockComment),
        STRING => Some(Callback::String),
        CHAR => Some(Callback::Char),
        _ => Some(Callback::Bytestring),
    }
}
