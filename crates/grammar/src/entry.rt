// The entries of grammar.rs, and `Entrypoint::parse` of parser/mod.rs up to the sink.
ghost use Rattle.definitions.specs.Layout.{MOST_OPEN_CALLS};
ghost use Rattle.definitions.specs.Prog.{yes};
ghost use Rattle.definitions.specs.Grammar.{sourcefile_part, entry_sourcefile, entry};
ghost use Rattle.parser.specs.View.{TakesOne, WalksWithin, WalksWithinOn};
ghost use Rattle.grammar.specs.Subprograms.{entry_for};
ghost use Rattle.grammar.specs.Runs.{MayRefuse, Ran};

use crate::preprocessor_directive::{Inside, catch_unmatched_pp_directive};
use crate::{cells, item, propvalues};
use ends::nodes::{left_over, unmatched_rcurly};
use layout::limit::MOST_OPEN_CALLS;
use layout::token_kind::TokenKind;
use layout::{ByteOffset, TokenIndex};
use names::reference::reference_noamp;
use parser::pending::Pending;
use parser::{NOTHING_REFUSED, Parser, Refused};

#[derive(Clone, Copy, PartialEq, Eq)]
pub enum Entrypoint {
    SourceFile,
    ReferenceNoamp,
    PropValues,
    Cells,
}

// What a run leaves beside the lent buffers: how many numbers of each are written, where the parser stands, what is
// pending, and why it stopped, if it did.
#[derive(Clone, Copy)]
pub struct Run {
    pub events_written: usize,
    pub reports_written: usize,
    pub pool_written: usize,
    pub cursor: TokenIndex,
    pub byte: ByteOffset,
    pub mark: TokenIndex,
    pub mark_byte: ByteOffset,
    pub pending: Pending,
    pub refused: Refused,
}

// One turn of `entry_sourcefile`.
fn sourcefile_part(p: &mut Parser)
    ensures walks { WalksWithinOn MOST_OPEN_CALLS sourcefile_part p.old p.new }
    ensures taken { TakesOne p.old p.new }
{
    if p.silent_at(TokenKind::RCurly) {
        unmatched_rcurly(p);
        return;
    }
    if catch_unmatched_pp_directive(p, MOST_OPEN_CALLS, Inside::Item) {
        return;
    }
    item(p, MOST_OPEN_CALLS);
}

fn entry_sourcefile(p: &mut Parser)
    ensures { WalksWithin MOST_OPEN_CALLS entry_sourcefile p.old yes p.new }
{
    while !p.at_end() {
        sourcefile_part(p);
    }
}

fn enter(p: &mut Parser, entrypoint: Entrypoint)
    ensures { WalksWithinOn MOST_OPEN_CALLS (entry (entry_for entrypoint)) p.old p.new }
{
    match entrypoint {
        Entrypoint::SourceFile => entry_sourcefile(p),
        Entrypoint::ReferenceNoamp => reference_noamp(p),
        Entrypoint::PropValues => {
            propvalues(p, MOST_OPEN_CALLS, false);
        }
        Entrypoint::Cells => {
            cells(p, MOST_OPEN_CALLS, true);
        }
    }
}

// `Entrypoint::parse` up to the sink: the entry from the first token on, and the tokens that it leaves over. Nothing is
// refused, or 5 to 7.
pub fn run_entry(
    tokens: &[u32],
    events: &mut [u32],
    reports: &mut [u32],
    pool: &mut [u32],
    entrypoint: Entrypoint,
) -> Run
    ensures ran { Ran (entry_for entrypoint) tokens events reports pool result }
    ensures cause { MayRefuse result.refused.number result.refused.place.0 }
{
    let mut p = Parser {
        tokens,
        events,
        events_written: 0,
        reports,
        reports_written: 0,
        pool,
        pool_written: 0,
        cursor: TokenIndex(0),
        byte: ByteOffset(0),
        mark: TokenIndex(0),
        mark_byte: ByteOffset(0),
        pending: Pending::none(),
        refused: NOTHING_REFUSED,
    };
    enter(&mut p, entrypoint);
    left_over(&mut p);
    Run {
        events_written: p.events_written,
        reports_written: p.reports_written,
        pool_written: p.pool_written,
        cursor: p.cursor,
        byte: p.byte,
        mark: p.mark,
        mark_byte: p.mark_byte,
        pending: p.pending,
        refused: p.refused,
    }
}
