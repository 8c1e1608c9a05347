// grammar/expr.rs: expressions by binding power; and `dt_expr` of grammar.rs.
#![tactic(auto)]

ghost use Rattle.std.specs.Prelude.{◌≡◌, true, ◌<◌, IsSome};
ghost use Rattle.definitions.specs.Prog.{no, yes, expr_binding_power};
ghost use Rattle.definitions.specs.Grammar.{lhs as lhs_prog, infix_turn, dt_expr};
ghost use Rattle.definitions.specs.Run.{truth};
ghost use Rattle.token_rows.specs.Tokens.{kind_of};
ghost use Rattle.parser.specs.View.{toks, rest, tokens_left, Becomes, OpensWithin, Walks, WalksWithin, TakesOne};
ghost use Rattle.binding_power.specs.Power.{left_of, right_of, is_binary};
ghost use Rattle.binding_power.specs.Answer.{left_in, right_in, binary_in};
ghost use Rattle.expr.specs.Subprograms.{at_prefix_op, prefix_expr, paren_expr, literal_expr, missing_lhs, no_lhs, ternary_rhs};
ghost use Rattle.expr.specs.Chain.{look_for_infix, TurnsWithin, LinksWithin};

use binding_power::{BindingPower, PREFIX_POWER, TERNARY_LEFT, TERNARY_RIGHT, binding_power};
use layout::expected::Expected;
use layout::hint::Hint;
use layout::message::Message;
use layout::node_kind::NodeKind;
use layout::refusal::Refusal;
use layout::set::PREFIX_OPERATORS_SET;
use layout::token_kind::TokenKind;
use macros::macro_invocation;
use parser::Parser;
use parser::errors::Bump;
use parser::marker::Marker;
use parser::matcher::Matcher;
use token_rows::token::kind_at;

// `InfixOp::at`
fn infix_op_at(p: &mut Parser) -> Option<BindingPower>
    ensures becomes { Becomes (look_for_infix (toks p.old)) p.old p.new }
    ensures left { left_in result ≡ left_of (kind_of (rest p.new)) }
    ensures right { right_in result ≡ right_of (kind_of (rest p.new)) }
    ensures binary { binary_in result ≡ is_binary (kind_of (rest p.new)) }
    ensures power { IsSome result → 0 < left_in result }
    ensures some { IsSome result → 0 < tokens_left p.new }
{
    p.add_expected(Expected::InfixOperator);
    p.peek();
    binding_power(kind_at(p.tokens, p.cursor.0))
}

// `PrefixOp::at`
fn at_prefix_op(p: &mut Parser) -> bool
    ensures walks { Walks at_prefix_op p.old (truth result) p.new }
    ensures some { result ≡ true → 0 < tokens_left p.new }
{
    p.add_expected(Expected::PrefixOperator);
    p.silent_at_set(&PREFIX_OPERATORS_SET)
}

pub fn expr(p: &mut Parser, allowed: usize) -> bool
    ensures opens { OpensWithin allowed (expr_binding_power 0) p.old (truth result) p.new }
    ensures taken { result ≡ true → TakesOne p.old p.new }
{
    expr_binding_power(p, allowed, 0)
}

// An expression in brackets.
pub fn dt_expr(p: &mut Parser, allowed: usize)
    ensures walks { WalksWithin allowed dt_expr p.old yes p.new }
    ensures taken { TakesOne p.old p.new }
{
    let m = p.start();
    p.bump();
    expr(p, allowed);
    p.expect(Matcher::Kind(TokenKind::RParen));
    m.complete(p, NodeKind::DtExpr);
}

#[cycle(expression)]
pub fn expr_binding_power(p: &mut Parser, allowed: usize, min_bp: u8) -> bool
    ensures opens { OpensWithin allowed (expr_binding_power min_bp) p.old (truth result) p.new }
    ensures taken { result ≡ true → TakesOne p.old p.new }
{
    if allowed == 0 {
        p.refuse(Refusal::TooDeep);
        return false;
    }
    let m = p.start();
    if !lhs(p, allowed - 1) {
        m.ignore(p);
        return false;
    }
    infix_chain(p, allowed - 1, min_bp, m);
    true
}

// Each turn's InfixExpr takes in all that stands since the first marker.
#[cycle(expression)]
fn infix_chain(p: &mut Parser, allowed: usize, min_bp: u8, first: Marker)
    ensures { LinksWithin allowed (infix_turn min_bp) first p.old p.new }
{
    let mut m = first;
    while let Some(right) = infix_turn(p, allowed, min_bp) {
        m = m.complete(p, NodeKind::InfixExpr).precede(p);
        if !right {
            break;
        }
    }
    m.ignore(p);
}

// An operator and its right side, and whether that was parsed; None where no operator is to be taken here.
#[cycle(expression)]
fn infix_turn(p: &mut Parser, allowed: usize, min_bp: u8) -> Option<bool>
    ensures walks { TurnsWithin allowed (infix_turn min_bp) p.old result p.new }
    ensures taken { IsSome result → tokens_left p.new < tokens_left p.old }
{
    let op = infix_op_at(p)?;
    if op.left < min_bp {
        return None;
    }
    p.bump();
    let right = if op.left == TERNARY_LEFT {
        ternary_rhs(p, allowed)
    } else {
        expr_binding_power(p, allowed, op.right)
    };
    Some(right)
}

// After the question mark: the middle, the colon and the right side.
#[cycle(expression)]
fn ternary_rhs(p: &mut Parser, allowed: usize) -> bool
    ensures { TurnsWithin allowed ternary_rhs p.old (Some result) p.new }
{
    expr_binding_power(p, allowed, 0)
        && p.expect(Matcher::Kind(TokenKind::Colon))
        && expr_binding_power(p, allowed, TERNARY_RIGHT)
}

#[cycle(expression)]
fn lhs(p: &mut Parser, allowed: usize) -> bool
    ensures walks { WalksWithin allowed lhs_prog p.old (truth result) p.new }
    ensures taken { result ≡ true → TakesOne p.old p.new }
{
    if at_prefix_op(p) {
        return prefix_expr(p, allowed);
    }
    if p.at(Matcher::Kind(TokenKind::LParen)) {
        return paren_expr(p, allowed);
    }
    if p.at(Matcher::Kind(TokenKind::Ident)) {
        macro_invocation(p);
        return true;
    }
    if p.at(Matcher::Either(TokenKind::Number, TokenKind::Char)) {
        literal_expr(p);
        return true;
    }
    no_lhs(p, allowed);
    false
}

#[cycle(expression)]
fn prefix_expr(p: &mut Parser, allowed: usize) -> bool
    ensures walks { WalksWithin allowed prefix_expr p.old (truth result) p.new }
    ensures taken { TakesOne p.old p.new }
{
    let m = p.start();
    p.bump();
    let right = expr_binding_power(p, allowed, PREFIX_POWER);
    m.complete(p, NodeKind::PrefixExpr);
    right
}

#[cycle(expression)]
fn paren_expr(p: &mut Parser, allowed: usize) -> bool
    ensures walks { WalksWithin allowed paren_expr p.old (truth result) p.new }
    ensures taken { TakesOne p.old p.new }
{
    let m = p.start();
    p.bump();
    let inner = expr_binding_power(p, allowed, 0);
    p.expect(Matcher::Kind(TokenKind::RParen));
    m.complete(p, NodeKind::ParenExpr);
    inner
}

fn literal_expr(p: &mut Parser)
    ensures walks { Walks literal_expr p.old yes p.new }
    ensures taken { TakesOne p.old p.new }
{
    let m = p.start();
    p.bump();
    m.complete(p, NodeKind::LiteralExpr);
}

// Nothing that an expression starts with.
#[cycle(expression)]
fn no_lhs(p: &mut Parser, allowed: usize)
    ensures { WalksWithin allowed no_lhs p.old no p.new }
{
    if infix_op_at(p).is_some_and(|op| op.binary) {
        missing_lhs(p, allowed);
    } else if p.silent_at(TokenKind::RParen) {
        p.error(Message::Expected, None, Bump::No);
    } else {
        p.error(Message::Expected, None, Bump::YesWrapErr);
    }
}

// Recovery: an operator whose left side is missing.
#[cycle(expression)]
fn missing_lhs(p: &mut Parser, allowed: usize)
    ensures { WalksWithin allowed missing_lhs p.old no p.new }
{
    p.error(Message::Expected, Some(Hint::MissingLeftSide), Bump::No);
    let m = p.start();
    p.bump();
    expr_binding_power(p, allowed, 0);
    m.complete(p, NodeKind::ParseError);
}
