// grammar/preprocessor_directive.rs: what is not in the cycle of calls. Its other functions stand in lib.rt.
ghost use Rattle.std.specs.Prelude.{◌≡◌, true};
ghost use Rattle.definitions.specs.Grammar.{catch_unmatched_pp_directive};
ghost use Rattle.definitions.specs.Run.{truth};
ghost use Rattle.parser.specs.View.{WalksWithin, TakesOne};
ghost use Rattle.grammar.specs.Subprograms.{inside_of};

use crate::cond_branches_and_end;
use layout::message::Message;
use layout::node_kind::NodeKind;
use layout::set::CONTINUE_COND_SET;
use layout::token_kind::TokenKind;
use parser::Parser;
use parser::errors::Bump;

// What a conditional's branch holds, in the place of the closures `eat_inside`: items, values (whether a semicolon ends
// them), or cells (whether the end of input does).
#[derive(Clone, Copy)]
pub enum Inside {
    Item,
    Values(bool),
    Cell(bool),
}

pub fn catch_unmatched_pp_directive(p: &mut Parser, allowed: usize, inside: Inside) -> bool
    ensures walks { WalksWithin allowed (catch_unmatched_pp_directive (inside_of inside)) p.old (truth result) p.new }
    ensures taken { result ≡ true → TakesOne p.old p.new }
{
    if p.silent_at(TokenKind::EndifDirective) {
        p.error(Message::UnmatchedEndif, None, Bump::YesWrapErr);
        return true;
    }
    if p.silent_at_set(&CONTINUE_COND_SET) {
        p.error(Message::StrayContinuation, None, Bump::No);
        let m_err = p.start();
        p.bump();
        cond_branches_and_end(p, allowed, inside);
        m_err.complete(p, NodeKind::ParseError);
        return true;
    }
    false
}
