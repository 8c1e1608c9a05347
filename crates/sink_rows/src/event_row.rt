// event.rs: the events as rows of numbers, a tag and what goes with it.
ghost use Rattle.std.specs.Prelude.{◌≡◌, ◌+◌, ◌/◌, ◌<◌, length, MatchOption, ⊤};
ghost use Rattle.definitions.specs.Layout.{EVENT_ROW};
ghost use Rattle.sink_rows.specs.Rows.{link as link_of, links as linksOf};

use layout::event_tag::LINKED_START_NODE;
use layout::row::{EVENT_DISTANCE, EVENT_ROW, EVENT_TAG};
use layout::rows::{field, row_at};

// The start that this one leads to, if it leads to one.
#[tactic(auto, unfolding(crate::specs::Rows::link, layout::specs::Rows::field))]
pub fn link(events: &[u32], j: usize) -> Option<usize>
    ensures value { MatchOption result (link_of events.now j ≡ 0)
        (λ k. (k ≡ j + link_of events.now j) × (j < k)) }
    ensures inside { MatchOption result ⊤ (λ k. k < length events.now / EVENT_ROW) }
{
    let distance = row_at::<EVENT_ROW>(events, j)?[EVENT_DISTANCE] as usize;
    let linked = field::<EVENT_ROW>(events, j + distance, EVENT_TAG) == LINKED_START_NODE;
    (linked && distance > 0).then_some(j + distance)
}

// How many links can be followed from event i on.
pub fn links(events: &[u32], i: usize) -> usize
    ensures { result ≡ linksOf events.now i }
{
    let mut j = i;
    let mut n = 0;
    while let Some(next) = link(events, j) {
        j = next;
        n += 1;
    }
    n
}
