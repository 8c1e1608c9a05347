// The matcher MacroSubstitutableName: a macro invocation with arguments, or a plain name.
ghost use Rattle.definitions.specs.Grammar.{MacroSubstitutableName as matcher_of_names};

use macros::macro_invocation;
use parser::Parser;
use parser::matcher::{Matcher, TokenMatcher};

#[derive(Clone, Copy)]
pub struct MacroSubstitutableName;

#[tactic(auto, unfolding(definitions::specs::Grammar::MacroSubstitutableName))]
impl TokenMatcher for MacroSubstitutableName {
    ghost matcher = { λ m. matcher_of_names };

    // A name matches both cases.
    fn matches(self, p: &mut Parser) -> bool {
        p.silent(Matcher::Name)
    }

    fn push_expected(self, p: &mut Parser) {
        Matcher::Name.push_expected(p);
    }

    fn consume(self, p: &mut Parser) {
        if p.silent_at_macro_invocation_with_args() {
            macro_invocation(p);
        } else {
            Matcher::Name.consume(p);
        }
    }
}
