// What stands before a node's body or a property's value, `eat_node_or_prop_prefix` of grammar.rs: labels, the name of
// the node or property with its unit address, or a reference.
#![tactic(auto)]

ghost use Rattle.std.specs.Prelude.{◌+◌, ◌-◌, ◌≤◌};
ghost use Rattle.definitions.specs.Grammar.{prefix_turn, eat_node_or_prop_prefix};
ghost use Rattle.parser.specs.View.{tokens_left, ans_of, Walks, TakesOne};
ghost use Rattle.steps.specs.View.{took_if_again, took_unless_no};
ghost use Rattle.prefixes.specs.Subprograms.{label_or_name, labels_and_name};

use layout::message::Message;
use layout::node_kind::NodeKind;
use layout::token_kind::TokenKind;
use names::macro_substitutable_name::MacroSubstitutableName;
use names::reference::Reference;
use names::unit_address::UnitAddress;
use parser::errors::Bump;
use parser::matcher::{Matcher, TokenMatcher};
use parser::{Ans, Parser};

// A label (Again), or the name of a node or property (`own_name`). The cursor stands at the name.
fn label_or_name(p: &mut Parser, own_name: Ans) -> Ans
    ensures walks { Walks (label_or_name (ans_of own_name)) p.old (ans_of result) p.new }
    ensures taken { TakesOne p.old p.new }
{
    let m = p.start();
    MacroSubstitutableName.consume(p);
    if p.eat(Matcher::Kind(TokenKind::Colon)) {
        m.complete(p, NodeKind::DtLabel);
        return Ans::Again;
    }
    if p.eat(UnitAddress) && p.silent_at(TokenKind::Colon) {
        p.error(Message::AtSignInLabel, None, Bump::Yes);
        m.complete(p, NodeKind::ParseError);
        return Ans::Again;
    }
    m.ignore(p);
    own_name
}

fn turn(p: &mut Parser, own_name: Ans) -> Ans
    ensures walks { Walks (prefix_turn (ans_of own_name)) p.old (ans_of result) p.new }
    ensures taken_again { tokens_left p.new + took_if_again result ≤ tokens_left p.old }
    ensures taken { tokens_left p.new ≤ tokens_left p.old - took_unless_no result }
{
    if p.at(MacroSubstitutableName) {
        return label_or_name(p, own_name);
    }
    if p.eat(Reference) || p.eat(Matcher::Kind(TokenKind::Slash)) {
        return Ans::Yes;
    }
    Ans::No
}

fn labels_and_name(p: &mut Parser, own_name: Ans) -> Ans
    ensures walks { Walks (labels_and_name (ans_of own_name)) p.old (ans_of result) p.new }
    ensures taken { tokens_left p.new ≤ tokens_left p.old - took_unless_no result }
{
    loop {
        match turn(p, own_name) {
            Ans::Again => {}
            answer => return answer,
        }
    }
}

// No: None; Yes: Some(false); Also: Some(true), a property is allowed.
pub fn eat_node_or_prop_prefix(p: &mut Parser) -> Ans
    ensures walks { Walks eat_node_or_prop_prefix p.old (ans_of result) p.new }
    ensures taken { tokens_left p.new ≤ tokens_left p.old - took_unless_no result }
{
    if p.eat(Matcher::Kind(TokenKind::OmitIfNoRefDirective)) {
        labels_and_name(p, Ans::Yes)
    } else {
        labels_and_name(p, Ans::Also)
    }
}
