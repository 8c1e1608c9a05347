// `TokenMatcher` of parser/mod.rs: what a test looks for, what is pushed where it is not there, how it is taken. The kinds
// and names are an enum; the grammar's own matchers (a name that may be a macro, a unit address, a reference) stand with
// the grammar.
ghost use Rattle.std.specs.Prelude.{◌≡◌, true, ◌<◌};
ghost use Rattle.definitions.specs.Token.{one_of};
ghost use Rattle.definitions.specs.Prog.{yes};
ghost use Rattle.definitions.specs.Run.{truth};
ghost use Rattle.definitions.specs.Check.{Matcher as MatcherProgs};
ghost use Rattle.parser.specs.View.{matcher_of, kinds_of, Walks, tokens_left, TakesOne};

use crate::Parser;
use layout::expected::Expected;
use layout::set::{LABEL_NAME_SET, NAME_SET};
use layout::token_kind::TokenKind;

pub trait TokenMatcher: Copy {
    // The matcher of the definitions that each is.
    ghost matcher: { Self → MatcherProgs };

    fn matches(self, p: &mut Parser) -> bool
        ensures walks { Walks (matcher self).matches p.old (truth result) p.new }
        ensures some { result ≡ true → 0 < tokens_left p.new };

    fn push_expected(self, p: &mut Parser)
        ensures { Walks (matcher self).push_expected p.old yes p.new };

    // The matcher has matched.
    fn consume(self, p: &mut Parser)
        ensures walks { Walks (matcher self).consume p.old yes p.new }
        ensures taken { TakesOne p.old p.new };
}

#[derive(Clone, Copy)]
pub enum Matcher {
    Kind(TokenKind),
    Either(TokenKind, TokenKind),
    Name,
    LabelName,
}

impl Matcher {
    // Whether a token of kind k matches.
    pub fn matches_kind(self, k: u8) -> bool
        ensures { result ≡ one_of (kinds_of self) k }
    {
        match self {
            Matcher::Kind(a) => k == a.number(),
            Matcher::Either(a, b) => k == a.number() || k == b.number(),
            Matcher::Name => NAME_SET.contains(&k),
            Matcher::LabelName => LABEL_NAME_SET.contains(&k),
        }
    }
}

impl TokenMatcher for Matcher {
    ghost matcher = { matcher_of };

    fn matches(self, p: &mut Parser) -> bool {
        p.peek();
        p.is_matched(self)
    }

    fn push_expected(self, p: &mut Parser) {
        match self {
            Matcher::Kind(a) => p.add_expected(Expected::Kind(a)),
            Matcher::Either(a, b) => {
                p.add_expected(Expected::Kind(a));
                p.add_expected(Expected::Kind(b));
            }
            Matcher::Name => p.add_expected(Expected::Kind(TokenKind::Name)),
            Matcher::LabelName => p.add_expected(Expected::LabelName),
        }
    }

    fn consume(self, p: &mut Parser) {
        match self {
            Matcher::Kind(_) | Matcher::Either(_, _) => p.bump(),
            Matcher::Name => p.bump_name(&NAME_SET),
            Matcher::LabelName => p.bump_name(&LABEL_NAME_SET),
        }
    }
}
