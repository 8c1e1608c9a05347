// The end of a query: its list is kept, with zeros after it, or nothing is.
#![tactic(auto)]

ghost use Rattle.std.specs.Prelude.{◌≡◌};
ghost use Rattle.call.specs.Result.{held, SameSlices, list_result_of};
ghost use Rattle.listing.specs.Listed.{counted, ended};

use call::buffer::clear;
use call::lent::Buffers;
use call::list::ListAnswer;
use call::{Answer, refused};
use layout::refusal::NO_TREE_ROOM;

// Refused by the parse, or before it.
pub fn without_list(a: Answer) -> ListAnswer
    ensures { result ≡ counted a 0 }
{
    ListAnswer {
        answer: a,
        list_count: 0,
    }
}

// After an accepted parse, and a list of so many numbers, of which those that fit stand at the front of its buffer. One
// that does not fit is cause 8: nothing is kept. The events are zero already after a parse.
pub fn finish(a: Answer, count: usize, buffers: &mut Buffers<'_>, list: &mut [u32]) -> ListAnswer
    ensures same { SameSlices buffers.old buffers.new }
    ensures ended { list_result_of result list.new (held buffers.new)
        ≡ ended a count list.old (held buffers.old) }
{
    if count <= list.len() {
        clear(list, count);
        return ListAnswer {
            answer: a,
            list_count: count,
        };
    }
    clear(buffers.trees, 0);
    clear(buffers.errors, 0);
    clear(buffers.reports, 0);
    clear(buffers.pool, 0);
    clear(list, 0);
    without_list(refused(NO_TREE_ROOM, 0))
}
