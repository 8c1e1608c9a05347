// A text's tokens, read into a lent buffer.
ghost use Rattle.lexer.specs.Found.{Reads};

use crate::check::{Cause, check};
use crate::rows::lex;
use lex_table::Automaton;

// How many token numbers there are. Nothing is written unless all of the text is known to be sound.
pub fn read(bytes: &[u8], tokens: &mut [u32]) -> Result<usize, Cause>
    ensures { Reads bytes.now tokens.old tokens.new result }
{
    // For both passes.
    let automaton = Automaton::new();
    let numbers = check(&automaton, bytes, tokens.len())?;
    // The check has met no directive, so that this pass meets none.
    let _ = lex(&automaton, bytes, tokens);
    Ok(numbers)
}
