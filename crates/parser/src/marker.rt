// marker.rs: a marker is the index of the placeholder that was pushed for it, and the tag of the start that it becomes
// when it is completed.
ghost use Rattle.std.specs.Prelude.{◌≡◌};
ghost use Rattle.definitions.specs.Layout.{PLACEHOLDER, START_NODE, LINKED_START_NODE};
ghost use Rattle.layout.specs.Numbers.{node_number};
ghost use Rattle.machine.specs.Machine.{put_start, put_link, push, complete as complete_machine, precede as precede_machine};
ghost use Rattle.machine.specs.Walk.{next_marker};
ghost use Rattle.parser.specs.View.{view, marker_of, Becomes};

use crate::Parser;
use layout::event_tag::{EventTag, LINKED_START_NODE, START_NODE};
use layout::node_kind::NodeKind;
use layout::row::{EVENT_ARGUMENT, EVENT_DISTANCE, EVENT_ROW};
use layout::word::low32;
use token_rows::fit::fits;

#[derive(Clone, Copy)]
pub struct Marker {
    pub index: usize,
    pub tag: u32,
}

// A marker that became a start.
#[derive(Clone, Copy)]
pub struct CompletedMarker(pub Marker);

// The placeholder at this index becomes a start.
fn put_start(events: &mut [u32], m: Marker, kind: u32)
    ensures { events.new ≡ put_start (marker_of m) kind events.old }
{
    if fits(events.len(), m.index, EVENT_ROW) {
        events[m.index] = m.tag;
        events[m.index + EVENT_ARGUMENT] = kind;
    }
}

// The start at this index is linked forward to the event at another.
fn put_link(events: &mut [u32], index: usize, to: usize)
    ensures { events.new ≡ put_link index to events.old }
{
    if fits(events.len(), index, EVENT_ROW) && index <= to {
        events[index + EVENT_DISTANCE] = low32((to - index) / EVENT_ROW);
    }
}

impl<'a> Parser<'a> {
    pub fn start(&mut self) -> Marker
        ensures marker { marker_of result ≡ next_marker START_NODE (view self.old) }
        ensures becomes { Becomes (push PLACEHOLDER 0) self.old self.new }
    {
        let index = self.events_written;
        self.push_event(EventTag::Placeholder, 0);
        Marker {
            index,
            tag: START_NODE,
        }
    }
}

impl Marker {
    pub fn complete(self, p: &mut Parser, kind: NodeKind) -> CompletedMarker
        ensures same { result.0 ≡ self }
        ensures becomes { Becomes (complete_machine (marker_of self) (node_number kind)) p.old p.new }
    {
        if p.is_open() {
            put_start(p.events, self, kind.number());
            p.push_row(EventTag::FinishNode, 0);
        }
        CompletedMarker(self)
    }

    // The placeholder stays, and a second one is pushed.
    pub fn ignore(self, p: &mut Parser)
        ensures { Becomes (push PLACEHOLDER 0) p.old p.new }
    {
        p.push_event(EventTag::Placeholder, 0);
    }
}

impl CompletedMarker {
    // A new marker, to which the completed node is linked forward.
    pub fn precede(self, p: &mut Parser) -> Marker
        ensures marker { marker_of result ≡ next_marker LINKED_START_NODE (view p.old) }
        ensures becomes { Becomes (precede_machine (marker_of self.0)) p.old p.new }
    {
        let to = p.events_written;
        p.push_event(EventTag::Placeholder, 0);
        if p.is_open() {
            put_link(p.events, self.0.index, to);
        }
        Marker {
            index: to,
            tag: LINKED_START_NODE,
        }
    }
}
