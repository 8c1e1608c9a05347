// grammar.rs: items, node bodies, properties, values and cells, and with them the conditionals of
// preprocessor_directive.rs. They are one cycle of calls: tokens left, and then a rank of the function, fall at each
// call. `allowed` is how many more calls of `item`, `propvalues` and `eat_cell` may be opened. What no call can be
// opened under stands in the crates below. The ten functions of the Rust have its names, but `eat_pp_directive`. The
// names of their cases are short: `bits`, `value` and `value_rest` are cases of `propvalues`, `cell_rest` of `eat_cell`,
// `item_rest` of `item`, `node` of `eat_node_or_prop`, `branch` of `cond_branches_and_end`.
#![tactic(auto)]

pub mod entry;
mod preprocessor_directive;

ghost use Rattle.std.specs.Prelude.{◌≡◌, true, ◌-◌, ◌≤◌, ◌<◌};
ghost use Rattle.definitions.specs.Prog.{yes, item, propvalues, eat_cell};
ghost use Rattle.definitions.specs.Grammar.{eat_inside, branch, cond_branches_and_end, eat_preprocessor_directive, cells, dt_cell_list, bits_value, propvalue, dt_property, dt_node_body, no_property, eat_node_or_prop};
ghost use Rattle.definitions.specs.Run.{truth};
ghost use Rattle.parser.specs.View.{ans_of, tokens_left, OpensWithin, OpensWithinOn, ClosesWithin, WalksWithin, WalksWithinOn, TakesOne};
ghost use Rattle.grammar.specs.Subprograms.{inside_of, cell_rest, value_rest, item_rest};

use crate::preprocessor_directive::Inside;
use directives::{eat_dts_directive, eat_dts_include};
use ends::lists::{after_propvalue, at_cells_end, at_cells_recovery, at_item, unfinished};
use ends::nodes::{forbidden_property, node_end};
use expr::dt_expr;
use layout::expected::Expected;
use layout::hint::Hint;
use layout::message::Message;
use layout::node_kind::NodeKind;
use layout::refusal::Refusal;
use layout::set::{
    BEGIN_COND_SET, CONTINUE_COND_SET, ITEM_RECOVERY_SET, OPERATORS_SET, PREPROCESSOR_DIRECTIVES,
};
use layout::token_kind::TokenKind;
use macros::macro_invocation;
use names::reference::Reference;
use parser::errors::Bump;
use parser::marker::Marker;
use parser::matcher::Matcher;
use parser::{Ans, Parser};
use plain_cells::eat_plain_cell;
use prefixes::eat_node_or_prop_prefix;

// ---- cells

#[cycle(grammar)]
fn cells(p: &mut Parser, allowed: usize, until_end: bool) -> bool
    ensures { WalksWithin allowed (cells until_end) p.old (truth result) p.new }
{
    loop {
        if eat_cell(p, allowed, until_end) {
            continue;
        }
        if at_cells_end(p, until_end) {
            return true;
        }
        if at_cells_recovery(p) {
            p.error(Message::Expected, None, Bump::No);
            return false;
        }
        p.error(Message::Expected, Some(Hint::InCells), Bump::YesWrapErr);
    }
}

#[cycle(grammar)]
fn eat_cell(p: &mut Parser, allowed: usize, until_end: bool) -> bool
    ensures opens { OpensWithin allowed (eat_cell until_end) p.old (truth result) p.new }
    ensures taken { result ≡ true → tokens_left p.new < tokens_left p.old }
{
    if allowed == 0 {
        p.refuse(Refusal::TooDeep);
        return false;
    }
    if eat_plain_cell(p) {
        return true;
    }
    if p.silent_at(TokenKind::LParen) {
        dt_expr(p, allowed - 1);
        return true;
    }
    cell_rest(p, allowed - 1, until_end)
}

// The last cases of `eat_cell`.
#[cycle(grammar)]
fn cell_rest(p: &mut Parser, allowed: usize, until_end: bool) -> bool
    ensures walks { WalksWithin allowed (cell_rest until_end) p.old (truth result) p.new }
    ensures taken { result ≡ true → tokens_left p.new < tokens_left p.old }
{
    if eat_dts_include(p) {
        return true;
    }
    if eat_pp_directive(p, allowed, Inside::Cell(until_end)) {
        return true;
    }
    if !p.silent_at_set(&OPERATORS_SET) {
        return false;
    }
    if p.at(Matcher::Kind(TokenKind::RAngle)) {
        return false;
    }
    p.error(
        Message::Expected,
        Some(Hint::MissingParentheses),
        Bump::YesWrapErr,
    );
    true
}

// Completes m, which the caller made. false: the cells were cut off.
#[cycle(grammar)]
fn dt_cell_list(p: &mut Parser, allowed: usize, m: Marker) -> bool
    ensures closes { ClosesWithin allowed m dt_cell_list p.old (truth result) p.new }
    ensures taken { TakesOne p.old p.new }
{
    p.bump();
    if !cells(p, allowed, false) {
        m.complete(p, NodeKind::ParseError);
        return false;
    }
    p.expect(Matcher::Kind(TokenKind::RAngle));
    m.complete(p, NodeKind::DtCellList);
    true
}

// ---- values

#[cycle(grammar)]
fn propvalues(p: &mut Parser, allowed: usize, semicolon: bool) -> bool
    ensures opens { OpensWithin allowed (propvalues semicolon) p.old (truth result) p.new }
    ensures taken { TakesOne p.old p.new }
{
    if allowed == 0 {
        p.refuse(Refusal::TooDeep);
        return false;
    }
    loop {
        if p.at_end() {
            return true;
        }
        match value(p, allowed - 1, semicolon) {
            Ans::No => return false,
            Ans::Also => return true,
            Ans::Yes | Ans::Again => match after_propvalue(p, semicolon) {
                Ans::Again => {}
                Ans::Yes => return true,
                Ans::No | Ans::Also => return false,
            },
        }
    }
}

// One value. Yes: it was there; No: its cells were cut off; Also: it was not there.
#[cycle(grammar)]
fn value(p: &mut Parser, allowed: usize, semicolon: bool) -> Ans
    ensures walks { WalksWithin allowed (propvalue semicolon) p.old (ans_of result) p.new }
    ensures taken { TakesOne p.old p.new }
{
    p.add_expected(Expected::Value);
    if p.silent_at(TokenKind::BitsDirective) {
        return Ans::from(bits(p, allowed));
    }
    if p.silent_eat(Matcher::Kind(TokenKind::String)) {
        return Ans::Yes;
    }
    if p.silent_at(TokenKind::LAngle) {
        let m = p.start();
        return Ans::from(dt_cell_list(p, allowed, m));
    }
    value_rest(p, allowed, semicolon)
}

// `/bits/`, its number and its cells.
#[cycle(grammar)]
fn bits(p: &mut Parser, allowed: usize) -> bool
    ensures walks { WalksWithin allowed bits_value p.old (truth result) p.new }
    ensures taken { TakesOne p.old p.new }
{
    let m_cell_list = p.start();
    let m = p.start();
    p.bump();
    p.expect(Matcher::Kind(TokenKind::Number));
    m.complete(p, NodeKind::DtsDirective);
    if p.at(Matcher::Kind(TokenKind::LAngle)) {
        return dt_cell_list(p, allowed, m_cell_list);
    }
    p.error(Message::Expected, None, Bump::Yes);
    m_cell_list.complete(p, NodeKind::ParseError);
    true
}

// The last cases of a value.
#[cycle(grammar)]
fn value_rest(p: &mut Parser, allowed: usize, semicolon: bool) -> Ans
    ensures walks { WalksWithin allowed (value_rest semicolon) p.old (ans_of result) p.new }
    ensures taken { TakesOne p.old p.new }
{
    if p.silent_eat(Reference) {
        return Ans::Yes;
    }
    if p.silent_at(TokenKind::Ident) {
        macro_invocation(p);
        return Ans::Yes;
    }
    if p.silent_eat(Matcher::Kind(TokenKind::DtBytestring)) {
        return Ans::Yes;
    }
    if eat_dts_include(p) {
        return Ans::Yes;
    }
    if eat_pp_directive(p, allowed, Inside::Values(semicolon)) {
        return Ans::Yes;
    }
    p.error(Message::Expected, None, Bump::YesWrapErr);
    Ans::Also
}

// ---- properties and nodes

// Completes m, which the caller made. The cursor is at a Semicolon or an Equals.
#[cycle(grammar)]
fn dt_property(p: &mut Parser, allowed: usize, m: Marker)
    ensures closes { ClosesWithin allowed m dt_property p.old yes p.new }
    ensures taken { TakesOne p.old p.new }
{
    if p.eat(Matcher::Kind(TokenKind::Semicolon)) {
        m.complete(p, NodeKind::DtProperty);
        return;
    }
    p.bump();
    let list_m = p.start();
    let values = propvalues(p, allowed, true);
    list_m.complete(p, NodeKind::PropValueList);
    if values {
        p.expect_recoverable(Matcher::Kind(TokenKind::Semicolon), &ITEM_RECOVERY_SET);
        m.complete(p, NodeKind::DtProperty);
    } else {
        m.complete(p, NodeKind::ParseError);
    }
}

// Completes m, which the caller made. The cursor is at the LCurly.
#[cycle(grammar)]
fn dt_node_body(p: &mut Parser, allowed: usize, m: Marker)
    ensures closes { ClosesWithin allowed m dt_node_body p.old yes p.new }
    ensures taken { TakesOne p.old p.new }
{
    let lcurly_span = p.range();
    p.bump();
    while at_item(p) {
        item(p, allowed);
    }
    node_end(p, m, lcurly_span);
}

// ---- items

#[cycle(grammar)]
fn item(p: &mut Parser, allowed: usize)
    ensures opens { OpensWithinOn allowed item p.old p.new }
    ensures taken { TakesOne p.old p.new }
{
    if allowed == 0 {
        p.refuse(Refusal::TooDeep);
        return;
    }
    if eat_node_or_prop(p, allowed - 1) {
        return;
    }
    if p.silent_at(TokenKind::Equals) {
        let m = p.start();
        p.error(Message::Expected, Some(Hint::UnnamedProperty), Bump::No);
        let m_prop = p.start();
        dt_property(p, allowed - 1, m_prop);
        m.complete(p, NodeKind::ParseError);
        return;
    }
    if p.silent_at(TokenKind::LCurly) {
        let m = p.start();
        p.error(Message::Expected, Some(Hint::UnnamedNode), Bump::No);
        let m_node = p.start();
        dt_node_body(p, allowed - 1, m_node);
        m.complete(p, NodeKind::ParseError);
        return;
    }
    item_rest(p, allowed - 1);
}

// The last cases of `item`.
#[cycle(grammar)]
fn item_rest(p: &mut Parser, allowed: usize)
    ensures walks { WalksWithin allowed item_rest p.old yes p.new }
    ensures taken { TakesOne p.old p.new }
{
    if p.silent_at(TokenKind::Semicolon) {
        p.error(Message::UnmatchedSemicolon, None, Bump::YesWrapErr);
        return;
    }
    if eat_dts_directive(p) {
        return;
    }
    if eat_pp_directive(p, allowed, Inside::Item) {
        return;
    }
    p.error(Message::Expected, None, Bump::YesWrapErr);
}

#[cycle(grammar)]
fn eat_node_or_prop(p: &mut Parser, allowed: usize) -> bool
    ensures walks { WalksWithin allowed eat_node_or_prop p.old (truth result) p.new }
    ensures taken { result ≡ true → TakesOne p.old p.new }
{
    let m = p.start();
    match eat_node_or_prop_prefix(p) {
        Ans::No => {
            m.ignore(p);
            false
        }
        Ans::Also => {
            if p.at(Matcher::Either(TokenKind::Equals, TokenKind::Semicolon)) {
                dt_property(p, allowed, m);
            } else {
                node(p, allowed, m, true);
            }
            true
        }
        Ans::Yes | Ans::Again => {
            node(p, allowed, m, false);
            true
        }
    }
}

// What follows the prefix, unless it is a property: the definitions' `no_property`. Completes m, which the caller made.
#[cycle(grammar)]
fn node(p: &mut Parser, allowed: usize, m: Marker, allow_prop: bool)
    ensures { ClosesWithin allowed m (no_property allow_prop) p.old yes p.new }
{
    if p.at(Matcher::Kind(TokenKind::LCurly)) {
        dt_node_body(p, allowed, m);
        return;
    }
    if p.silent_at(TokenKind::RCurly) {
        p.error(Message::Expected, None, Bump::Yes);
        m.complete(p, NodeKind::ParseError);
        return;
    }
    if forbidden_property(p, allow_prop) {
        p.error(Message::Expected, Some(Hint::PropertyNotAllowed), Bump::No);
        let m_prop = p.start();
        dt_property(p, allowed, m_prop);
        m.complete(p, NodeKind::ParseError);
        return;
    }
    unfinished(p, m);
}

// ---- preprocessor_directive.rs

// What a branch holds, once. false: nothing was there.
#[cycle(grammar)]
fn eat_inside(p: &mut Parser, allowed: usize, inside: Inside) -> bool
    ensures walks { WalksWithin allowed (eat_inside (inside_of inside)) p.old (truth result) p.new }
    ensures taken { result ≡ true → TakesOne p.old p.new }
{
    match inside {
        Inside::Item => {
            item(p, allowed);
            true
        }
        Inside::Values(semicolon) => {
            propvalues(p, allowed, semicolon);
            true
        }
        Inside::Cell(until_end) => eat_cell(p, allowed, until_end),
    }
}

// One branch, up to its end (false) or to a continuation (true).
#[cycle(grammar)]
fn branch(p: &mut Parser, allowed: usize, inside: Inside) -> bool
    ensures walks { WalksWithin allowed (branch (inside_of inside)) p.old (truth result) p.new }
    ensures some { result ≡ true → 0 < tokens_left p.old }
{
    let m_branch = p.start();
    loop {
        if p.at(Matcher::Kind(TokenKind::EndifDirective)) {
            m_branch.complete(p, NodeKind::PreprocessorBranch);
            return false;
        }
        if p.at_end() {
            m_branch.complete(p, NodeKind::PreprocessorBranch);
            return false;
        }
        if p.silent_at_set(&CONTINUE_COND_SET) {
            m_branch.complete(p, NodeKind::PreprocessorBranch);
            return true;
        }
        if !eat_inside(p, allowed, inside) {
            m_branch.complete(p, NodeKind::PreprocessorBranch);
            return false;
        }
    }
}

#[cycle(grammar)]
fn cond_branches_and_end(p: &mut Parser, allowed: usize, inside: Inside)
    ensures { WalksWithinOn allowed (cond_branches_and_end (inside_of inside)) p.old p.new }
{
    while branch(p, allowed, inside) {
        p.bump();
    }
    p.expect(Matcher::Kind(TokenKind::EndifDirective));
}

// `eat_preprocessor_directive`
#[cycle(grammar)]
fn eat_pp_directive(p: &mut Parser, allowed: usize, inside: Inside) -> bool
    ensures walks { WalksWithin allowed (eat_preprocessor_directive (inside_of inside)) p.old (truth result) p.new }
    ensures taken { result ≡ true → tokens_left p.new < tokens_left p.old }
{
    p.add_expected(Expected::PreprocessorDirective);
    if !p.silent_at_set(&PREPROCESSOR_DIRECTIVES) {
        return false;
    }
    if p.silent_at_set(&BEGIN_COND_SET) {
        let m_cond = p.start();
        p.bump();
        cond_branches_and_end(p, allowed, inside);
        m_cond.complete(p, NodeKind::PreprocessorConditional);
        return true;
    }
    p.bump();
    true
}

#[cfg(test)]
mod tests;
