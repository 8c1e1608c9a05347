// The matcher UnitAddress: an AtSign and a name.
ghost use Rattle.definitions.specs.Grammar.{UnitAddress as matcher_of_addresses};

use crate::macro_substitutable_name::MacroSubstitutableName;
use layout::node_kind::NodeKind;
use layout::token_kind::TokenKind;
use parser::Parser;
use parser::matcher::{Matcher, TokenMatcher};

#[derive(Clone, Copy)]
pub struct UnitAddress;

#[tactic(auto, unfolding(definitions::specs::Grammar::UnitAddress))]
impl TokenMatcher for UnitAddress {
    ghost matcher = { λ m. matcher_of_addresses };

    fn matches(self, p: &mut Parser) -> bool {
        p.silent(Matcher::Kind(TokenKind::AtSign))
    }

    fn push_expected(self, p: &mut Parser) {
        Matcher::Kind(TokenKind::AtSign).push_expected(p);
    }

    fn consume(self, p: &mut Parser) {
        let m = p.start();
        p.bump();
        p.expect(MacroSubstitutableName);
        m.complete(p, NodeKind::UnitAddress);
    }
}
