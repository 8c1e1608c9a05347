// `macro_invocation` of grammar.rs: an Ident, and a bracketed argument list directly after it. No open call can be under
// one.
#![tactic(auto)]

ghost use Rattle.std.specs.Prelude.{◌≡◌, true, ◌-◌, ◌<◌};
ghost use Rattle.definitions.specs.Layout.{TWO_TO_64};
ghost use Rattle.definitions.specs.Prog.{yes, act, bump_argument, loop};
ghost use Rattle.definitions.specs.Grammar.{macro_argument_turn, macro_invocation};
ghost use Rattle.definitions.specs.Run.{truth};
ghost use Rattle.parser.specs.View.{tokens_left, Walks, WalksOn, TakesOne};
ghost use Rattle.macros.specs.Subprograms.{argument_list};
ghost use Rattle.macros.specs.Role.{role};

use layout::node_kind::NodeKind;
use layout::token_kind::TokenKind;
use parser::Parser;
use parser::matcher::Matcher;
use token_rows::token::{SEEN_AT_END, kind_at};

const LPAREN: u8 = TokenKind::LParen as u8;

const RPAREN: u8 = TokenKind::RParen as u8;

const COMMA: u8 = TokenKind::Comma as u8;

// What a token is to the argument that it is read in.
#[derive(Clone, Copy, PartialEq, Eq)]
pub enum Role {
    // The comma after it.
    Comma,
    // The end of the arguments.
    End,
    // A token of it; so many inner brackets are open after it.
    Inside(usize),
}

#[tactic(auto, unfolding(crate::specs::Role::role))]
fn role_of(k: u8, level: usize) -> Role
    requires { level < TWO_TO_64 - 1 }
    ensures { result ≡ role k level }
{
    match k {
        SEEN_AT_END => Role::End,
        LPAREN => Role::Inside(level + 1),
        RPAREN if level == 0 => Role::End,
        RPAREN => Role::Inside(level - 1),
        COMMA if level == 0 => Role::Comma,
        _ => Role::Inside(level),
    }
}

// One argument: every token up to a comma (true), an RParen or the end (false) outside inner brackets.
fn bump_argument(p: &mut Parser) -> bool
    ensures walks { Walks (act bump_argument) p.old (truth result) p.new }
    ensures some { result ≡ true → 0 < tokens_left p.new }
{
    let mut level: usize = 0;
    loop {
        p.peek();
        match role_of(kind_at(p.tokens, p.cursor.0), level) {
            Role::Comma => return true,
            Role::End => return false,
            Role::Inside(next) => {
                p.bump();
                level = next;
            }
        }
    }
}

// Arguments, each a MacroArgument, with commas between.
fn arguments(p: &mut Parser)
    ensures { Walks (loop macro_argument_turn) p.old yes p.new }
{
    loop {
        let m = p.start();
        let comma = bump_argument(p);
        m.complete(p, NodeKind::MacroArgument);
        if !comma {
            return;
        }
        p.bump();
    }
}

// From the LParen to the RParen.
fn argument_list(p: &mut Parser)
    ensures walks { WalksOn argument_list p.old p.new }
    ensures taken { TakesOne p.old p.new }
{
    p.bump();
    if !p.at(Matcher::Kind(TokenKind::RParen)) {
        arguments(p);
    }
    p.expect(Matcher::Kind(TokenKind::RParen));
}

// The cursor stands at the Ident.
pub fn macro_invocation(p: &mut Parser)
    ensures walks { Walks macro_invocation p.old yes p.new }
    ensures taken { TakesOne p.old p.new }
{
    let m = p.start();
    p.bump();
    if p.at_immediate(TokenKind::LParen) {
        argument_list(p);
    }
    m.complete(p, NodeKind::MacroInvocation);
}
