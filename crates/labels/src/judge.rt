// All judged nodes of a run, one after the other; no such node lies inside another (proofs/JudgedNodes.antt).
ghost use Rattle.std.specs.Prelude.{◌≡◌, Ok, IfErr};
ghost use Rattle.definitions.specs.Layout.{NO_REPORT_ROOM};
ghost use Rattle.definitions.specs.Token.{tokens_of};
ghost use Rattle.labels.specs.Model.{out, shown, seat, nodes_on, strict_on, names_on};
ghost use Rattle.labels.specs.Promise.{Promise};

use crate::node::is_judged;
use crate::report::Names;
use crate::run::Run;
use crate::scan::next_judged;
use crate::seat::solid_after;
use layout::setting::OLD;
use token_rows::token::Seat;

const START: Seat = Seat { at: 0, byte: 0 };

impl Run<'_> {
    fn all_nodes(&self, reports: &mut [u32], written: usize) -> Names
        ensures { out result reports.new
            ≡ nodes_on self.now.bytes.now (tokens_of self.now.tokens.now) self.now.first
            (shown self.now.events.now) 0 (seat 0 0) (out (Ok written) reports.old) }
    {
        let mut written = written;
        let mut from = 0;
        let mut seat = START;
        while let Ok(found) = next_judged(self.events, from) {
            seat = solid_after(self.tokens, seat, found.behind as usize);
            from = found.event + 1;
            written = self.judge_node(found.kind, from, seat, reports, Ok(written))?;
        }
        Ok(written)
    }

    // A root of this kind, and all below it. Where the root's own Names are judged there is no judged node below it.
    fn judge_root(&self, kind: u32, reports: &mut [u32], written: usize) -> Names
        ensures { out result reports.new
            ≡ strict_on kind self.now.bytes.now (tokens_of self.now.tokens.now) self.now.first
            (shown self.now.events.now) (out (Ok written) reports.old) }
    {
        if is_judged(kind) {
            let seat = solid_after(self.tokens, START, 0);
            self.judge_node(kind, 0, seat, reports, Ok(written))
        } else {
            self.all_nodes(reports, written)
        }
    }
}

// The reports that a setting adds to a run that broke no limit. The first clause says what becomes of any buffers; the
// second, that for the events of a run it is what the definitions say; the third, that a refusal is 7 for any buffers.
// written: how many report numbers the run wrote; theirs follow. first: how many expectations it wrote.
pub fn report_names(
    setting: u32,
    root_kind: u32,
    bytes: &[u8],
    tokens: &[u32],
    events: &[u32],
    reports: &mut [u32],
    written: usize,
    first: u32,
) -> Names
    ensures reports_after { out result reports.new
        ≡ names_on setting root_kind bytes.now (tokens_of tokens.now) written first
        events.now reports.old }
    ensures promise { Promise setting root_kind bytes.now tokens.now written first
        events.now reports.old result reports.new }
    ensures room_alone { IfErr result (λ stopped. stopped.number ≡ NO_REPORT_ROOM) }
{
    if setting == OLD {
        return Ok(written);
    }
    Run {
        bytes,
        tokens,
        events,
        first,
    }
    .judge_root(root_kind, reports, written)
}
