// The functions of grammar.rs that stand beside its cycle of calls and call nothing of it: the end of a node's body, a
// test before a property, an unmatched bracket, and what an entry leaves.
ghost use Rattle.std.specs.Prelude.{◌≡◌};
ghost use Rattle.definitions.specs.Prog.{yes, loop};
ghost use Rattle.definitions.specs.Run.{truth};
ghost use Rattle.definitions.specs.Grammar.{forbidden_property, left_over_turn, left_over};
ghost use Rattle.parser.specs.View.{Walks, TakesOne, ClosesAt};
ghost use Rattle.ends.specs.Subprograms.{node_end, unmatched_rcurly};

use layout::expected::Expected;
use layout::message::Message;
use layout::node_kind::NodeKind;
use layout::set::ITEM_RECOVERY_SET;
use layout::token_kind::TokenKind;
use parser::Parser;
use parser::errors::{Bump, TextRange};
use parser::marker::Marker;
use parser::matcher::Matcher;

// `!allow_prop && check(..).silent().at()`
pub fn forbidden_property(p: &mut Parser, allow_prop: bool) -> bool
    ensures { Walks (forbidden_property allow_prop) p.old (truth result) p.new }
{
    !allow_prop && p.silent_at_set(&[TokenKind::Equals as u8, TokenKind::Semicolon as u8])
}

// The end of a node's body. Completes m, which the caller made; lcurly_span is the range of the node's LCurly.
pub fn node_end(p: &mut Parser, m: Marker, lcurly_span: TextRange)
    ensures { ClosesAt lcurly_span m node_end p.old yes p.new }
{
    if p.at_end() {
        p.emit(Message::UnclosedNode, None, lcurly_span);
    } else {
        p.expect(Matcher::Kind(TokenKind::RCurly));
        p.expect_recoverable(Matcher::Kind(TokenKind::Semicolon), &ITEM_RECOVERY_SET);
    }
    m.complete(p, NodeKind::DtNode);
}

pub fn unmatched_rcurly(p: &mut Parser)
    ensures walks { Walks unmatched_rcurly p.old yes p.new }
    ensures taken { TakesOne p.old p.new }
{
    p.error(Message::UnmatchedRcurly, None, Bump::No);
    let m = p.start();
    p.bump();
    m.complete(p, NodeKind::ParseError);
}

pub fn bump_all(p: &mut Parser)
    ensures { Walks (loop left_over_turn) p.old yes p.new }
{
    while !p.at_end() {
        p.bump();
    }
}

// What an entry leaves goes into one ParseError.
pub fn left_over(p: &mut Parser)
    ensures { Walks left_over p.old yes p.new }
{
    if p.at_end() {
        return;
    }
    p.add_expected(Expected::End);
    let m = p.start();
    p.error(Message::Expected, None, Bump::No);
    bump_all(p);
    m.complete(p, NodeKind::ParseError);
}
