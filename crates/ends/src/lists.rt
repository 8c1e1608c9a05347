// Where items, values and cells end: the conditions of grammar.rs's loops.
ghost use Rattle.std.specs.Prelude.{◌≡◌, true, false, ◌<◌};
ghost use Rattle.definitions.specs.Prog.{yes, also};
ghost use Rattle.definitions.specs.Grammar.{cells_end, after_propvalue};
ghost use Rattle.definitions.specs.Run.{truth};
ghost use Rattle.parser.specs.View.{tokens_left, ans_of, Walks, Closes};
ghost use Rattle.ends.specs.Subprograms.{at_item, at_cells_recovery, at_values_end, unfinished};

use layout::expected::Expected;
use layout::message::Message;
use layout::node_kind::NodeKind;
use layout::set::{
    CELLS_RECOVERY_SET, CONTINUE_COND_SET, ITEM_RECOVERY_SET, PROPERTY_VALUE_RECOVERY_SET,
};
use layout::token_kind::TokenKind;
use parser::errors::Bump;
use parser::marker::Marker;
use parser::matcher::Matcher;
use parser::{Ans, Parser};

// Whether a node's body goes on here.
pub fn at_item(p: &mut Parser) -> bool
    ensures walks { Walks at_item p.old (truth result) p.new }
    ensures some { result ≡ true → 0 < tokens_left p.new }
{
    !p.at(Matcher::Kind(TokenKind::RCurly)) && !p.at_end()
}

// Whether cells end here.
pub fn at_cells_end(p: &mut Parser, until_end: bool) -> bool
    ensures { Walks (cells_end until_end) p.old (truth result) p.new }
{
    if until_end {
        p.add_expected(Expected::End);
        p.at_end()
    } else {
        p.at(Matcher::Kind(TokenKind::RAngle))
    }
}

// Whether cells are cut off here.
pub fn at_cells_recovery(p: &mut Parser) -> bool
    ensures walks { Walks at_cells_recovery p.old (truth result) p.new }
    ensures some { result ≡ false → 0 < tokens_left p.old }
{
    p.silent_at_set(&CELLS_RECOVERY_SET)
        || p.at_end()
        || p.silent_at_set(&CONTINUE_COND_SET)
        || p.silent_at(TokenKind::EndifDirective)
}

// `at(ending_kinds)`
fn at_values_end(p: &mut Parser, semicolon: bool) -> bool
    ensures { Walks (at_values_end semicolon) p.old (truth result) p.new }
{
    if semicolon {
        p.at(Matcher::Kind(TokenKind::Semicolon))
    } else {
        p.silent_at_set(&[])
    }
}

// After a value. Again: one more; Yes: the values end here; No: they are cut off.
pub fn after_propvalue(p: &mut Parser, semicolon: bool) -> Ans
    ensures walks { Walks (after_propvalue semicolon) p.old (ans_of result) p.new }
    ensures never { ans_of result ≡ also → ⊥ }
{
    if p.eat(Matcher::Kind(TokenKind::Comma)) {
        return Ans::Again;
    }
    if at_values_end(p, semicolon) {
        return Ans::Yes;
    }
    if p.silent_at_set(&PROPERTY_VALUE_RECOVERY_SET) {
        p.error(Message::Expected, None, Bump::No);
        return Ans::Again;
    }
    Ans::No
}

// After a prefix that neither a node nor a property follows: a token that no item starts with is taken. Completes m,
// which the caller made.
pub fn unfinished(p: &mut Parser, m: Marker)
    ensures { Closes m unfinished p.old yes p.new }
{
    p.error(Message::Expected, None, Bump::No);
    if !p.silent_at_set(&ITEM_RECOVERY_SET) && !p.at_end() {
        p.bump();
    }
    m.complete(p, NodeKind::ParseError);
}
