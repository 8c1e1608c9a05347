// Causes 2 to 4 and 11 to 13, before the parse.
ghost use Rattle.std.specs.Prelude.{◌≡◌, MatchResult};
ghost use Rattle.definitions.specs.Refusal.{accepted};
ghost use Rattle.definitions.specs.RowCauses.{check_input};
ghost use Rattle.call.specs.Checked.{Refused};

use crate::{Answer, refused};
use input::causes;

// The answer to an input that may not be parsed.
pub fn check(bytes: &[u8], tokens: &[u32]) -> Result<(), Answer>
    ensures { MatchResult result (λ _. check_input bytes.now tokens.now ≡ accepted)
        (λ a. Refused a bytes.now tokens.now) }
{
    causes::check(bytes, tokens).map_err(|cause| refused(cause.number(), cause.place()))
}
