// From one judged node to the next. Most events lie outside such nodes, so this counts tokens alone: their places are
// worked out once a node is found.
ghost use Rattle.std.specs.Prelude.{◌≡◌, ◌/◌, ◌≤◌, ◌<◌, IfOk, length, drop};
ghost use Rattle.definitions.specs.Layout.{EVENT_ROW};
ghost use Rattle.labels.specs.Model.{shown, next_judged};

use crate::event::is_start;
use crate::node::is_judged;
use layout::event_tag::{ADD_COMBINED_TOKEN, ADD_TOKEN};
use layout::row::{EVENT_ARGUMENT, EVENT_ROW};

// The start of a judged node.
#[derive(Clone, Copy)]
pub struct Found {
    pub event: usize,
    pub kind: u32,
    // How many raw tokens that are not trivia were taken on the way.
    pub behind: u32,
}

// That no judged node is left: how many events there are, and how many raw tokens that are not trivia were taken on the
// way.
#[derive(Clone, Copy)]
pub struct NoneFound {
    pub events: usize,
    pub behind: u32,
}

// The first one from an event on. This loop goes over all events: one index, of a row's first number, is all that it
// counts up.
pub fn next_judged(events: &[u32], from: usize) -> Result<Found, NoneFound>
    requires { from ≤ length events.now / EVENT_ROW }
    ensures value { result ≡ next_judged (drop from (shown events.now)) from 0 }
    ensures further { IfOk result (λ f. (from ≤ f.event) × (f.event < length events.now / EVENT_ROW)) }
{
    let end = events.len() / EVENT_ROW * EVENT_ROW;
    let mut i = from * EVENT_ROW;
    let mut behind: u32 = 0;
    while i < end {
        let tag = events[i];
        if tag == ADD_TOKEN {
            behind = behind.wrapping_add(1);
        } else {
            let argument = events[i + EVENT_ARGUMENT];
            if tag == ADD_COMBINED_TOKEN {
                behind = behind.wrapping_add(argument);
            } else if is_judged(argument) && is_start(tag) {
                return Ok(Found {
                    event: i / EVENT_ROW,
                    kind: argument,
                    behind,
                });
            }
        }
        i += EVENT_ROW;
    }
    Err(NoneFound {
        events: i / EVENT_ROW,
        behind,
    })
}
