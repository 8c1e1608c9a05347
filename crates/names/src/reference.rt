// The matcher Reference: an Ampersand and what `reference_noamp` of grammar.rs parses: a path in curly brackets, a
// macro invocation with arguments, or a label.
ghost use Rattle.std.specs.Prelude.{◌≡◌, true, ◌<◌};
ghost use Rattle.definitions.specs.Prog.{yes, loop};
ghost use Rattle.definitions.specs.Run.{truth};
ghost use Rattle.definitions.specs.Grammar.{path_segment, path_turn, path_rest, reference_noamp, Reference as matcher_of_references};
ghost use Rattle.parser.specs.View.{tokens_left, Walks, WalksOn, TakesOne};
ghost use Rattle.names.specs.Subprograms.{at_segment, path};

use crate::unit_address::UnitAddress;
use layout::message::Message;
use layout::node_kind::NodeKind;
use layout::set::CONTINUE_COND_SET;
use layout::token_kind::TokenKind;
use macros::macro_invocation;
use parser::Parser;
use parser::errors::Bump;
use parser::matcher::{Matcher, TokenMatcher};

// A node's name and its unit address, if it has one.
fn path_segment(p: &mut Parser)
    ensures walks { WalksOn path_segment p.old p.new }
    ensures taken { TakesOne p.old p.new }
{
    if p.eat(Matcher::Name) {
        p.eat(UnitAddress);
    } else {
        p.error(Message::Expected, None, Bump::YesWrapErr);
    }
}

// Whether a path goes on here.
fn at_segment(p: &mut Parser) -> bool
    ensures walks { Walks at_segment p.old (truth result) p.new }
    ensures some { result ≡ true → 0 < tokens_left p.old }
{
    !p.at(Matcher::Kind(TokenKind::RCurly))
        && !p.at_end()
        && !p.silent_at_set(&CONTINUE_COND_SET)
        && !p.silent_at(TokenKind::EndifDirective)
}

// A slash and a segment, again and again.
fn path_segments(p: &mut Parser)
    ensures { Walks (loop path_turn) p.old yes p.new }
{
    while at_segment(p) {
        p.expect(Matcher::Kind(TokenKind::Slash));
        path_segment(p);
    }
}

fn path_rest(p: &mut Parser)
    ensures { WalksOn path_rest p.old p.new }
{
    path_segments(p);
    p.expect(Matcher::Kind(TokenKind::RCurly));
}

// After the LCurly: an absolute path starts with a slash, a relative one with a label.
fn path(p: &mut Parser)
    ensures { WalksOn path p.old p.new }
{
    if p.eat(Matcher::Kind(TokenKind::Slash)) {
        if p.eat(Matcher::Kind(TokenKind::RCurly)) {
            return;
        }
        path_segment(p);
    } else if !p.eat(Matcher::Name) {
        p.error(Message::Expected, None, Bump::YesWrapErr);
    }
    path_rest(p);
}

pub fn reference_noamp(p: &mut Parser)
    ensures { WalksOn reference_noamp p.old p.new }
{
    if p.eat(Matcher::Kind(TokenKind::LCurly)) {
        path(p);
    } else if p.silent_at_macro_invocation_with_args() {
        macro_invocation(p);
    } else if !p.eat(Matcher::LabelName) {
        p.error(Message::Expected, None, Bump::YesWrapErr);
    }
}

#[derive(Clone, Copy)]
pub struct Reference;

#[tactic(auto, unfolding(definitions::specs::Grammar::Reference))]
impl TokenMatcher for Reference {
    ghost matcher = { λ m. matcher_of_references };

    fn matches(self, p: &mut Parser) -> bool {
        p.silent(Matcher::Kind(TokenKind::Ampersand))
    }

    fn push_expected(self, p: &mut Parser) {
        Matcher::Kind(TokenKind::Ampersand).push_expected(p);
    }

    fn consume(self, p: &mut Parser) {
        let m = p.start();
        p.bump();
        reference_noamp(p);
        m.complete(p, NodeKind::DtPhandle);
    }
}
