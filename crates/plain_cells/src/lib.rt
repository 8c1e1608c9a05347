// The first cases of `eat_cell` of grammar.rs: the cells that no call is opened for: a literal, a macro or a reference.
#![tactic(auto)]

ghost use Rattle.std.specs.Prelude.{◌≡◌, true, ◌<◌};
ghost use Rattle.definitions.specs.Run.{truth};
ghost use Rattle.parser.specs.View.{tokens_left, Walks};
ghost use Rattle.plain_cells.specs.Subprograms.{plain_cell};

use layout::expected::Expected;
use layout::token_kind::TokenKind;
use macros::macro_invocation;
use names::reference::Reference;
use parser::Parser;
use parser::matcher::Matcher;

pub fn eat_plain_cell(p: &mut Parser) -> bool
    ensures walks { Walks plain_cell p.old (truth result) p.new }
    ensures taken { result ≡ true → tokens_left p.new < tokens_left p.old }
{
    p.add_expected(Expected::Cell);
    if p.silent_eat(Matcher::Either(TokenKind::Number, TokenKind::Char)) {
        return true;
    }
    if p.silent_at(TokenKind::Ident) {
        macro_invocation(p);
        return true;
    }
    p.silent_eat(Reference)
}
