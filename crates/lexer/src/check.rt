// What a text is refused for before its tokens are parsed: causes 2, 9 and 10. Nothing is written.
ghost use Rattle.std.specs.Prelude.{◌≡◌};
ghost use Rattle.lexer.specs.declared.check.Cause.TheVariants as C;
ghost use Rattle.lexer.specs.Found.{FitsRoom, Lower, Checks};

use crate::rows::Directive;
use crate::{high_byte, rows};
use layout::limit::{MOST_BYTES, MOST_TOKEN_NUMBERS};
use lex_table::Automaton;

#[derive(Clone, Copy, Debug, PartialEq, Eq)]
pub enum Cause {
    // Cause 2, of bytes or token numbers.
    TooLong,
    // Cause 9, at this byte.
    HighByte(usize),
    // Cause 10, at this byte.
    Directive(usize),
}

// Cause 2 for so many token numbers, where there is room for so many.
fn check_room(numbers: usize, room: usize) -> Result<usize, Cause>
    ensures { FitsRoom numbers room result }
{
    if numbers <= MOST_TOKEN_NUMBERS && numbers <= room {
        Ok(numbers)
    } else {
        Err(Cause::TooLong)
    }
}

impl From<Directive> for Cause {
    ghost from_gives = { λ d cause. cause ≡ C.Directive d.at };

    fn from(directive: Directive) -> Cause {
        Cause::Directive(directive.at)
    }
}

// Of causes 9 and 10 the one at the lower byte.
fn lower(high: Option<usize>, lexed: Result<usize, Directive>) -> Result<usize, Cause>
    ensures { Lower high lexed result }
{
    let Some(high) = high else {
        return Ok(lexed?);
    };
    match lexed {
        Ok(_) => Err(Cause::HighByte(high)),
        Err(directive) if directive.at < high => Err(directive.into()),
        Err(_) => Err(Cause::HighByte(high)),
    }
}

// How many token numbers a sound text has.
pub fn check(automaton: &Automaton, bytes: &[u8], room: usize) -> Result<usize, Cause>
    ensures { Checks bytes.now room result }
{
    if MOST_BYTES < bytes.len() {
        return Err(Cause::TooLong);
    }
    let lexed = rows::lex(automaton, bytes, &mut []);
    let numbers = lower(high_byte::first(bytes), lexed)?;
    check_room(numbers, room)
}
