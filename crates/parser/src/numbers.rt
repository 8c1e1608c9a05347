// Matchers by number: what `Matcher::Kind` and `Matcher::Either` are to kinds, for any bytes.
ghost use Rattle.std.specs.Prelude.{◌≡◌, [], ◌∷◌};
ghost use Rattle.definitions.specs.Token.{one_of};
ghost use Rattle.definitions.specs.Check.{of_kind, set};

use crate::Parser;
use crate::matcher::TokenMatcher;

#[derive(Clone, Copy)]
pub struct KindNumber(pub u8);

#[derive(Clone, Copy)]
pub struct EitherNumber(pub u8, pub u8);

impl KindNumber {
    // Whether a token of kind k matches.
    pub fn matches_kind(self, k: u8) -> bool
        ensures { result ≡ one_of (self.0 ∷ []) k }
    {
        k == self.0
    }
}

impl EitherNumber {
    pub fn matches_kind(self, k: u8) -> bool
        ensures { result ≡ one_of (self.0 ∷ self.1 ∷ []) k }
    {
        k == self.0 || k == self.1
    }
}

impl TokenMatcher for KindNumber {
    ghost matcher = { λ m. of_kind m.0 };

    fn matches(self, p: &mut Parser) -> bool {
        p.silent_at_set(&[self.0])
    }

    fn push_expected(self, p: &mut Parser) {
        p.add_code(self.0);
    }

    fn consume(self, p: &mut Parser) {
        p.bump();
    }
}

impl TokenMatcher for EitherNumber {
    ghost matcher = { λ m. set (m.0 ∷ m.1 ∷ []) };

    fn matches(self, p: &mut Parser) -> bool {
        p.silent_at_set(&[self.0, self.1])
    }

    fn push_expected(self, p: &mut Parser) {
        p.add_code(self.0);
        p.add_code(self.1);
    }

    fn consume(self, p: &mut Parser) {
        p.bump();
    }
}
