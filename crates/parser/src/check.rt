// `Check` of parser/mod.rs: tests and takes, loud or silent. A loud test that fails pushes its expectations, and `at`
// pushes them even on success.
ghost use Rattle.std.specs.Prelude.{◌≡◌, true, ◌<◌};
ghost use Rattle.layout.specs.Numbers.{kind_number, expected_number};
ghost use Rattle.definitions.specs.Prog.{yes, immediate, add_expected, act, ◌⨟◌};
ghost use Rattle.definitions.specs.Run.{truth};
ghost use Rattle.definitions.specs.Check.{expected, silent_eat as silent_eat_prog, at as at_prog, eat as eat_prog, expect as expect_prog, expect_recoverable as expect_recoverable_prog};
ghost use Rattle.parser.specs.View.{tokens_left, Walks, TakesOne};

use crate::Parser;
use crate::errors::Bump;
use crate::matcher::TokenMatcher;
use layout::expected::Expected;
use layout::message::Message;
use layout::token_kind::TokenKind;
use token_rows::token::is_at;

impl<'a> Parser<'a> {
    pub fn add_expected(&mut self, expected: Expected)
        ensures { Walks (act (add_expected (expected_number expected))) self.old yes self.new }
    {
        self.add_code(expected.number());
    }

    // The same by number: one that is no expectation is not pushed.
    pub fn add_code(&mut self, code: u8)
        ensures { Walks (act (add_expected code)) self.old yes self.new }
    {
        self.pending.add(code);
    }

    // `check(matcher).silent().at()`
    pub fn silent<M: TokenMatcher>(&mut self, m: M) -> bool
        ensures walks { Walks (M.matcher m).matches self.old (truth result) self.new }
        ensures some { result ≡ true → 0 < tokens_left self.new }
    {
        m.matches(self)
    }

    // `check(matcher).silent().eat()`
    pub fn silent_eat<M: TokenMatcher>(&mut self, m: M) -> bool
        ensures walks { Walks (silent_eat_prog (M.matcher m)) self.old (truth result) self.new }
        ensures taken { result ≡ true → tokens_left self.new < tokens_left self.old }
    {
        let matched = self.silent(m);
        if matched {
            m.consume(self);
        }
        matched
    }

    pub fn at<M: TokenMatcher>(&mut self, m: M) -> bool
        ensures walks { Walks (at_prog (M.matcher m)) self.old (truth result) self.new }
        ensures some { result ≡ true → 0 < tokens_left self.new }
    {
        m.push_expected(self);
        self.silent(m)
    }

    // Pushes the kind, and looks at the row at the cursor, be it trivia.
    pub fn at_immediate(&mut self, kind: TokenKind) -> bool
        ensures walks { Walks (expected (kind_number kind) ⨟ act (immediate (kind_number kind))) self.old (truth result) self.new }
        ensures some { result ≡ true → 0 < tokens_left self.new }
    {
        self.add_expected(Expected::Kind(kind));
        is_at(self.tokens, self.cursor.0, kind.number())
    }

    pub fn eat<M: TokenMatcher>(&mut self, m: M) -> bool
        ensures walks { Walks (eat_prog (M.matcher m)) self.old (truth result) self.new }
        ensures taken { result ≡ true → TakesOne self.old self.new }
    {
        let matched = self.silent(m);
        if matched {
            m.consume(self);
        } else {
            m.push_expected(self);
        }
        matched
    }

    pub fn expect<M: TokenMatcher>(&mut self, m: M) -> bool
        ensures walks { Walks (expect_prog (M.matcher m)) self.old (truth result) self.new }
        ensures taken { result ≡ true → TakesOne self.old self.new }
    {
        if self.eat(m) {
            return true;
        }
        self.error(Message::Expected, None, Bump::No);
        false
    }

    // On a failure, a token that is not in the recovery set is taken into a ParseError.
    pub fn expect_recoverable<M: TokenMatcher>(&mut self, m: M, recovery: &[u8]) -> bool
        ensures { Walks (expect_recoverable_prog (M.matcher m) recovery.now) self.old (truth result) self.new }
    {
        if self.eat(m) {
            return true;
        }
        if self.silent_at_set(recovery) {
            self.error(Message::Expected, None, Bump::No);
        } else {
            self.error(Message::Expected, None, Bump::YesWrapErr);
        }
        false
    }
}
