// What an event row says, as far as Names and their places go.
ghost use Rattle.std.specs.Prelude.{◌≡◌, ◌||◌, ◌==◌, ◌/◌, ◌<◌, length};
ghost use Rattle.definitions.specs.Layout.{EVENT_ROW, START_NODE, LINKED_START_NODE};
ghost use Rattle.labels.specs.Model.{event_of, event_at};

use layout::event_tag::{
    ADD_COMBINED_TOKEN, ADD_TOKEN, FINISH_NODE, LINKED_START_NODE, START_NODE,
};
use layout::row::{EVENT_ARGUMENT, EVENT_ROW, EVENT_TAG};

#[derive(Clone, Copy, PartialEq, Eq, Debug)]
pub enum Event {
    // The start of a node of this kind.
    Start(u32),
    Token,
    // A Name of so many raw tokens.
    Name(u32),
    Finish,
    Other,
}

pub fn is_start(tag: u32) -> bool
    ensures { result ≡ ((tag == START_NODE) || (tag == LINKED_START_NODE)) }
{
    tag == START_NODE || tag == LINKED_START_NODE
}

fn event_of(tag: u32, argument: u32) -> Event
    ensures { result ≡ event_of tag argument }
{
    match tag {
        ADD_TOKEN => Event::Token,
        ADD_COMBINED_TOKEN => Event::Name(argument),
        START_NODE | LINKED_START_NODE => Event::Start(argument),
        FINISH_NODE => Event::Finish,
        _ => Event::Other,
    }
}

pub fn event_at(events: &[u32], i: usize) -> Event
    requires { i < length events.now / EVENT_ROW }
    ensures { result ≡ event_at events.now i }
{
    let row = i * EVENT_ROW;
    event_of(events[row + EVENT_TAG], events[row + EVENT_ARGUMENT])
}
