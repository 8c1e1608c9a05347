// source.rs: the token rows and the cursor. A peek moves the cursor past trivia; an immediate one moves nothing.
ghost use Rattle.std.specs.Prelude.{◌≡◌, true, false, [], ◌∷◌, ◌<◌, drop};
ghost use Rattle.layout.specs.Numbers.{kind_number};
ghost use Rattle.definitions.specs.Token.{first_in};
ghost use Rattle.definitions.specs.Prog.{silent_at, at_end, act};
ghost use Rattle.definitions.specs.Grammar.{silent_at_macro_invocation_with_args};
ghost use Rattle.definitions.specs.Run.{truth};
ghost use Rattle.machine.specs.Machine.{peek as peek_machine, range_at};
ghost use Rattle.parser.specs.View.{view, toks, rest, tokens_left, kinds_of, take_first, span_of, Becomes, Walks, TakesOne};

use crate::Parser;
use crate::errors::TextRange;
use crate::matcher::Matcher;
use layout::row::TOKEN_ROW;
use layout::token_kind::TokenKind;
use layout::{ByteOffset, TokenIndex};
use token_rows::token::{end_at, is_at, is_next_at, is_one_of_at, kind_at, skip_trivia};

impl<'a> Parser<'a> {
    // Whether there is a token at the cursor.
    pub fn has_token(&self) -> bool
        ensures some { result ≡ true → 0 < tokens_left self.now }
        ensures none { result ≡ false → tokens_left self.now ≡ 0 }
    {
        self.cursor.0 < self.tokens.len() / TOKEN_ROW
    }

    // `skip_trivia`: the cursor stops at a token, or at the end.
    pub fn peek(&mut self)
        ensures { Becomes (peek_machine (toks self.old)) self.old self.new }
    {
        let seat = skip_trivia(self.tokens, self.cursor.0, self.byte.0);
        self.cursor = TokenIndex(seat.at);
        self.byte = ByteOffset(seat.byte);
    }

    pub fn at_end(&mut self) -> bool
        ensures walks { Walks (act at_end) self.old (truth result) self.new }
        ensures some { result ≡ false → 0 < tokens_left self.new }
        ensures none { result ≡ true → tokens_left self.new ≡ 0 }
    {
        self.peek();
        !self.has_token()
    }

    // `check(kind).silent().at()`
    pub fn silent_at(&mut self, kind: TokenKind) -> bool
        ensures walks { Walks (act (silent_at (kind_number kind ∷ []))) self.old (truth result) self.new }
        ensures some { result ≡ true → 0 < tokens_left self.new }
    {
        self.peek();
        is_at(self.tokens, self.cursor.0, kind.number())
    }

    // `check(set).silent().at()`
    pub fn silent_at_set(&mut self, set: &[u8]) -> bool
        ensures walks { Walks (act (silent_at set.now)) self.old (truth result) self.new }
        ensures some { result ≡ true → 0 < tokens_left self.new }
    {
        self.peek();
        is_one_of_at(self.tokens, self.cursor.0, set)
    }

    pub fn silent_at_macro_invocation_with_args(&mut self) -> bool
        ensures walks { Walks silent_at_macro_invocation_with_args self.old (truth result) self.new }
        ensures some { result ≡ true → 0 < tokens_left self.new }
    {
        self.silent_at(TokenKind::Ident)
            && is_next_at(self.tokens, self.cursor.0, TokenKind::LParen.number())
    }

    // Whether the matcher matches the row at the cursor.
    pub fn is_matched(&self, m: Matcher) -> bool
        ensures value { result ≡ first_in (kinds_of m) (rest self.now) }
        ensures some { result ≡ true → 0 < tokens_left self.now }
    {
        self.has_token() && m.matches_kind(kind_at(self.tokens, self.cursor.0))
    }

    // The range of the row at the cursor.
    pub fn range(&self) -> TextRange
        ensures { span_of result ≡ range_at (rest self.now) (view self.now) }
    {
        TextRange {
            start: self.byte,
            end: ByteOffset(end_at(self.tokens, self.cursor.0, self.byte.0)),
        }
    }

    // `next_token`, and the expectations cleared: takes the row at the cursor, whatever it is.
    pub fn next_token(&mut self)
        ensures becomes { Becomes (take_first (rest self.old)) self.old self.new }
        ensures taken { TakesOne self.old self.new }
    {
        if self.has_token() {
            let at = self.cursor.0;
            self.byte = ByteOffset(end_at(self.tokens, at, self.byte.0));
            self.cursor = TokenIndex(at + 1);
            self.mark = self.cursor;
            self.mark_byte = self.byte;
            self.pending.clear();
        }
    }
}
