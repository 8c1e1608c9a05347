// The events inside a node whose Names are judged.
ghost use Rattle.std.specs.Prelude.{◌≡◌, ◌+◌, ◌<◌, IfErr, drop};
ghost use Rattle.definitions.specs.Layout.{NO_REPORT_ROOM, TWO_TO_64};
ghost use Rattle.definitions.specs.Token.{tokens_of};
ghost use Rattle.labels.specs.Model.{out, on, judged_kind, token_on, name_on, event_on, shown, walk_at, inside_on, node_on};

use crate::event::{Event, event_at};
use crate::report::{Names, push_report};
use crate::rule::breaks_rule;
use crate::run::Run;
use crate::seat::{pass, solid_after};
use layout::node_kind::{DT_LABEL, DT_PHANDLE};
use layout::row::EVENT_ROW;
use layout::token_kind::LCURLY;
use token_rows::token::{Seat, is_at};

// Where a walk through a node's events stands.
#[derive(Clone, Copy)]
pub struct Walk {
    // How many nodes are open inside the node.
    pub depth: usize,
    // The raw token that is read next. It is not trivia.
    pub seat: Seat,
    // Whether an LCurly stood directly in the node.
    pub braced: bool,
    pub names: Names,
}

// The Names directly under a node of this kind are judged.
pub fn is_judged(kind: u32) -> bool
    ensures { result ≡ judged_kind kind }
{
    kind == DT_LABEL || kind == DT_PHANDLE
}

impl Run<'_> {
    // `AddToken`.
    fn add_token(&self, walk: &mut Walk)
        ensures { walk.new ≡ token_on (tokens_of self.now.tokens.now) walk.old }
    {
        if walk.depth == 0 && is_at(self.tokens, walk.seat.at, LCURLY) {
            walk.braced = true;
        }
        walk.seat = solid_after(self.tokens, walk.seat, 1);
    }

    // `AddCombinedToken`: a Name of n raw tokens, judged if it stands directly in the node.
    fn add_name(&self, walk: &mut Walk, n: usize, reports: &mut [u32])
        ensures { on walk.new reports.new
            ≡ name_on self.now.bytes.now (tokens_of self.now.tokens.now) self.now.first n
            (on walk.old reports.old) }
    {
        let from = walk.seat;
        let end = pass(self.tokens, from, n);
        walk.seat = solid_after(self.tokens, end, 0);
        if walk.depth == 0 && breaks_rule(self.bytes, from.byte, end.byte) {
            walk.names = push_report(walk.names, reports, from, end.byte, self.first);
        }
    }

    // An event that does not end the node.
    fn one_event(&self, walk: &mut Walk, event: Event, reports: &mut [u32])
        requires { walk.old.depth + 1 < TWO_TO_64 }
        ensures { on walk.new reports.new
            ≡ event_on self.now.bytes.now (tokens_of self.now.tokens.now) self.now.first event
            (on walk.old reports.old) }
    {
        match event {
            Event::Start(_) => walk.depth += 1,
            Event::Token => self.add_token(walk),
            Event::Name(n) => self.add_name(walk, n as usize, reports),
            Event::Finish => walk.depth = walk.depth.saturating_sub(1),
            Event::Other => {}
        }
    }

    // The events from one on, up to the end of the node that they stand in.
    fn inside(&self, from: usize, seat: Seat, reports: &mut [u32], names: Names) -> Walk
        ensures { on result reports.new
            ≡ inside_on self.now.bytes.now (tokens_of self.now.tokens.now) self.now.first
            (drop from (shown self.now.events.now)) (on (walk_at seat names) reports.old) }
    {
        let mut walk = Walk {
            depth: 0,
            seat,
            braced: false,
            names,
        };
        for i in from..self.events.len() / EVENT_ROW {
            let event = event_at(self.events, i);
            if event == Event::Finish && walk.depth == 0 {
                break;
            }
            self.one_event(&mut walk, event, reports);
        }
        walk
    }

    // A node of this kind, whose events begin with `from` and whose first token that is not trivia is at `seat`. A
    // DtPhandle with an LCurly reports nothing: what was written for it is not counted. A refusal that is there already
    // stays as it is; where none is, or 7, none but 7 comes of the node.
    pub fn judge_node(
        &self,
        kind: u32,
        from: usize,
        seat: Seat,
        reports: &mut [u32],
        names: Names,
    ) -> Names
        ensures judged { out result reports.new
            ≡ node_on self.now.bytes.now (tokens_of self.now.tokens.now) self.now.first kind
            (drop from (shown self.now.events.now)) seat (out names reports.old) }
        ensures room_alone { IfErr names (λ before. before.number ≡ NO_REPORT_ROOM)
            → IfErr result (λ stopped. stopped.number ≡ NO_REPORT_ROOM) }
    {
        let walk = self.inside(from, seat, reports, names);
        if kind == DT_PHANDLE && walk.braced {
            names
        } else {
            walk.names
        }
    }
}
