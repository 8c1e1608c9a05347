// After the parse: sink, the reports of the strict setting, answer, and what every lent buffer holds afterwards.
ghost use Rattle.std.specs.Prelude.{◌≡◌, ◌≤◌, length, IfOk};
ghost use Rattle.definitions.specs.Layout.{NO_TREE_ROOM};
ghost use Rattle.call.specs.Result.{held, SameSlices, result_of};
ghost use Rattle.call.specs.Ended.{answer_from, how_ended, AnswerOfParse, Ended};

use crate::buffer::clear;
use crate::lent::{Buffers, Input};
use crate::{Answer, accepted, refused};
use labels::judge::report_names;
use labels::report::NoMoreReports;
use layout::refusal::NO_TREE_ROOM;
use layout::row::{ERROR_ROW, REPORT_ROW, TREE_ROW};
use layout::word::low32;
use sink::{NoRoom, Written};

// How far a run filled these buffers, in numbers, refused or not.
#[derive(Clone, Copy)]
pub struct Filled {
    pub events: usize,
    pub reports: usize,
    pub pool: usize,
}

// Why a call is refused after its checks: the number of a cause of 5 to 8, and its place.
#[derive(Clone, Copy)]
pub struct Refusal {
    pub number: u32,
    pub place: usize,
}

// How a run ended.
#[derive(Clone, Copy)]
pub struct Ran {
    pub filled: Filled,
    pub refused: Option<Refusal>,
}

impl From<NoMoreReports> for Refusal {
    ghost from_gives = { λ no_more r. r ≡ record { number = no_more.number; place = no_more.place } };

    fn from(no_more: NoMoreReports) -> Refusal {
        Refusal {
            number: no_more.number,
            place: no_more.place,
        }
    }
}

impl From<NoRoom> for Refusal {
    ghost from_gives = { λ _ r. r ≡ record { number = NO_TREE_ROOM; place = 0 } };

    fn from(_: NoRoom) -> Refusal {
        Refusal {
            number: NO_TREE_ROOM,
            place: 0,
        }
    }
}

// The sink reads a run's events, and so does what reports the Names of the strict setting. A report of a Name that does
// not fit comes before a tree that does not. The buffers are not cleared yet.
fn answer_of_run(
    root_kind: u32,
    run: Result<Filled, Refusal>,
    input: Input<'_>,
    buffers: &mut Buffers<'_>,
) -> Result<Answer, Refusal>
    requires { IfOk run (λ w. w.events ≤ length buffers.old.events.now) }
    ensures same { SameSlices buffers.old buffers.new }
    ensures answer { AnswerOfParse root_kind run input.entry (held buffers.old) (answer_from result)
        (held buffers.new) }
{
    let filled = run?;
    let tokens = input.tokens;
    let events = &mut buffers.events[..filled.events];
    let sunk = sink::finish(root_kind, tokens, events, buffers.trees, buffers.errors);
    let reports_written = report_names(
        input.setting,
        root_kind,
        input.bytes,
        tokens,
        events,
        buffers.reports,
        filled.reports,
        low32(filled.pool),
    )?;
    let Written { rows, errors } = sunk?;
    Ok(accepted(rows, errors, reports_written / REPORT_ROW, filled.pool))
}

// Events are cleared whole, every other buffer after what is written to it. A refused call's counts are 0.
pub fn outcome(root_kind: u32, ran: Ran, input: Input<'_>, buffers: &mut Buffers<'_>) -> Answer
    requires { IfOk (how_ended ran) (λ w. w.events ≤ length buffers.old.events.now) }
    ensures same { SameSlices buffers.old buffers.new }
    ensures ended { Ended root_kind (how_ended ran) input.entry (held buffers.old)
        (result_of result (held buffers.new)) }
{
    let run = match ran.refused {
        None => Ok(ran.filled),
        Some(refusal) => Err(refusal),
    };
    let ended = answer_of_run(root_kind, run, input, buffers);
    let a = ended.unwrap_or_else(|r| refused(r.number, r.place));
    clear(buffers.events, 0);
    clear(buffers.trees, a.tree_count * TREE_ROW);
    clear(buffers.errors, a.error_count * ERROR_ROW);
    clear(buffers.reports, a.report_count * REPORT_ROW);
    clear(buffers.pool, a.expectation_count);
    a
}
