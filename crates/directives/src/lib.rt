// grammar.rs, the directives of the devicetree source that a DtsDirective wraps: `/dts-v1/`, `/plugin/`, `/include/`,
// `/memreserve/`, `/delete-node/`, `/delete-property/`. No open call can be under one.
#![tactic(auto)]

ghost use Rattle.std.specs.Prelude.{◌≡◌, true, ◌<◌};
ghost use Rattle.definitions.specs.Prog.{yes};
ghost use Rattle.definitions.specs.Grammar.{eat_dts_include, eat_dts_directive};
ghost use Rattle.definitions.specs.Run.{truth};
ghost use Rattle.parser.specs.View.{tokens_left, Walks, Closes, TakesOne};
ghost use Rattle.directives.specs.Subprograms.{directive_end, memreserve_arguments, deleted, delete_arguments, directive_with_arguments};

use layout::message::Message;
use layout::node_kind::NodeKind;
use layout::set::ITEM_RECOVERY_SET;
use layout::token_kind::TokenKind;
use names::macro_substitutable_name::MacroSubstitutableName;
use names::reference::Reference;
use names::unit_address::UnitAddress;
use parser::Parser;
use parser::errors::Bump;
use parser::marker::Marker;
use parser::matcher::{Matcher, TokenMatcher};

const INCLUDE: Matcher = Matcher::Kind(TokenKind::DtIncludeDirective);

const VERSION: Matcher = Matcher::Either(TokenKind::V1Directive, TokenKind::PluginDirective);

const MEMRESERVE: Matcher = Matcher::Kind(TokenKind::MemreserveDirective);

const DELETE: Matcher = Matcher::Either(
    TokenKind::DeleteNodeDirective,
    TokenKind::DeletePropertyDirective,
);

pub fn eat_dts_include(p: &mut Parser) -> bool
    ensures walks { Walks eat_dts_include p.old (truth result) p.new }
    ensures taken { result ≡ true → tokens_left p.new < tokens_left p.old }
{
    if !p.at(INCLUDE) {
        return false;
    }
    let m = p.start();
    INCLUDE.consume(p);
    p.expect(Matcher::Kind(TokenKind::String));
    m.complete(p, NodeKind::DtsDirective);
    true
}

// The semicolon, and the directive whose marker this is.
fn directive_end(p: &mut Parser, m: Marker)
    ensures { Closes m directive_end p.old yes p.new }
{
    p.expect_recoverable(Matcher::Kind(TokenKind::Semicolon), &ITEM_RECOVERY_SET);
    m.complete(p, NodeKind::DtsDirective);
}

fn memreserve_arguments(p: &mut Parser)
    ensures { Walks memreserve_arguments p.old yes p.new }
{
    let m_params = p.start();
    p.expect(Matcher::Kind(TokenKind::Number));
    p.expect(Matcher::Kind(TokenKind::Number));
    m_params.complete(p, NodeKind::DtsDirectiveArguments);
}

// What is deleted: a reference, or a name and perhaps a unit address.
fn eat_deleted(p: &mut Parser) -> bool
    ensures { Walks deleted p.old (truth result) p.new }
{
    if p.eat(Reference) {
        return true;
    }
    if p.eat(MacroSubstitutableName) {
        return p.eat(UnitAddress);
    }
    p.error(Message::Expected, None, Bump::No);
    true
}

fn delete_arguments(p: &mut Parser)
    ensures { Walks delete_arguments p.old yes p.new }
{
    let m_params = p.start();
    eat_deleted(p);
    m_params.complete(p, NodeKind::DtsDirectiveArguments);
}

// The directives with arguments.
fn eat_directive_with_arguments(p: &mut Parser) -> bool
    ensures walks { Walks directive_with_arguments p.old (truth result) p.new }
    ensures taken { result ≡ true → TakesOne p.old p.new }
{
    if p.at(MEMRESERVE) {
        let m = p.start();
        MEMRESERVE.consume(p);
        memreserve_arguments(p);
        directive_end(p, m);
        return true;
    }
    if p.at(DELETE) {
        let m = p.start();
        DELETE.consume(p);
        delete_arguments(p);
        directive_end(p, m);
        return true;
    }
    false
}

pub fn eat_dts_directive(p: &mut Parser) -> bool
    ensures walks { Walks eat_dts_directive p.old (truth result) p.new }
    ensures taken { result ≡ true → TakesOne p.old p.new }
{
    if p.at(VERSION) {
        let m = p.start();
        VERSION.consume(p);
        directive_end(p, m);
        return true;
    }
    eat_dts_include(p) || eat_directive_with_arguments(p)
}
