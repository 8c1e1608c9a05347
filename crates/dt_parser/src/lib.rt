// The exported call: checks, parse, and what every lent buffer holds afterwards.
#![tactic(auto)]

mod entrypoint;
pub mod query;
pub mod text;

ghost use Rattle.std.specs.Prelude.{◌≡◌};
ghost use Rattle.definitions.specs.Refusal.{accepted};
ghost use Rattle.definitions.specs.RowCauses.{check_input};
ghost use Rattle.definitions.specs.Call as Call;
ghost use Rattle.call.specs.Result.{at_entry, at_exit, held, SameSlices, result_of};
ghost use Rattle.dt_parser.specs.Asked.{stopped_by, ended_as, parse_of};

use crate::entrypoint::{entry_of, root_kind};
use call::check_input::check;
use call::lent::{Buffers, Input};
use call::outcome::{Filled, Ran, Refusal, outcome};
use call::{Answer, refused};
use grammar::entry::{Entrypoint, Run, run_entry};
use layout::refusal::UNKNOWN_ENTRY;
use parser::Refused;

// Number 0 refuses nothing.
fn refusal(refused: Refused) -> Option<Refusal>
    ensures { result ≡ stopped_by refused }
{
    if refused.number == 0 {
        return None;
    }
    Some(Refusal {
        number: refused.number,
        place: refused.place.0,
    })
}

// How far a run came, and why it stopped if something was refused.
fn ended(run: Run) -> Ran
    ensures { result ≡ ended_as run }
{
    Ran {
        filled: Filled {
            events: run.events_written,
            reports: run.reports_written,
            pool: run.pool_written,
        },
        refused: refusal(run.refused),
    }
}

// `Call.parse`: the run of an entry, and what becomes of it.
fn parse(e: Entrypoint, input: Input<'_>, buffers: &mut Buffers<'_>) -> Answer
    requires { check_input input.bytes.now input.tokens.now ≡ accepted }
    ensures same { SameSlices buffers.old buffers.new }
    ensures parsed { result_of result (held buffers.new) ≡ parse_of e input.entry (held buffers.old) }
{
    let run = run_entry(
        input.tokens,
        buffers.events,
        buffers.reports,
        buffers.pool,
        e,
    );
    outcome(root_kind(e), ended(run), input, buffers)
}

// The whole call.
#[tactic(auto, unfolding(definitions::specs::Call::call, definitions::specs::Call::asked, definitions::specs::Call::checked, definitions::specs::Refusal::number_of, definitions::specs::Refusal::place_of))]
fn answer(entry: u32, input: Input<'_>, buffers: &mut Buffers<'_>) -> Answer
    ensures same { SameSlices buffers.old buffers.new }
    ensures ended { result_of result (held buffers.new)
        ≡ Call.call entry input.entry.setting input.entry.bytes.now input.entry.tokens.now
        (held buffers.old) }
{
    let Some(e) = entry_of(entry) else {
        return refused(UNKNOWN_ENTRY, 0);
    };
    match check(input.bytes, input.tokens) {
        Ok(()) => parse(e, input, buffers),
        Err(refusal) => refusal,
    }
}

// The whole call, for any numbers in the lent slices: the answer and each element of every buffer are what `call` of
// `definitions` gives. Entry, setting (0: the old one, any other: the strict one), input bytes, token rows; then the
// buffers: events (work only), tree rows, lexical errors, reports, expectations.
pub fn dt_parse(
    entry: u32,
    setting: u32,
    bytes: &[u8],
    tokens: &[u32],
    events: &mut [u32],
    trees: &mut [u32],
    errors: &mut [u32],
    reports: &mut [u32],
    pool: &mut [u32],
) -> Answer
    ensures { result_of result (at_exit events trees errors reports pool)
        ≡ Call.call entry setting bytes.now tokens.now (at_entry events trees errors reports pool) }
{
    answer(
        entry,
        Input {
            setting,
            bytes,
            tokens,
        },
        &mut Buffers {
            events,
            trees,
            errors,
            reports,
            pool,
        },
    )
}
