// Tree rows. A finished row: class, kind, width, count, the parent's row. The row of an open node has its class, kind
// and parent already; in the place of width and count it holds what its end needs: its first byte, and how many
// children its parent had before it.
ghost use Rattle.std.specs.Prelude.{◌≡◌, ◌*◌, leb};
ghost use Rattle.definitions.specs.Layout.{TREE_ROW};
ghost use Rattle.sink_rows.specs.Rows.{put, open_rows};

use crate::event_row::link;
use layout::row::{EVENT_ARGUMENT, EVENT_ROW, NODE, TREE_COUNT, TREE_ROW, TREE_WIDTH};
use layout::{rows, word};

// The numbers of an open row that those of the finished row replace.
pub const FIRST_BYTE: usize = TREE_WIDTH;

pub const CHILDREN_BEFORE: usize = TREE_COUNT;

// Whether so many rows fit.
pub fn rows_fit(len: usize, rows: u32) -> bool
    ensures { result ≡ leb (rows * TREE_ROW) len }
{
    rows::rows_fit::<TREE_ROW>(len, rows)
}

// Nothing is written where the row does not fit.
pub fn write_row(trees: &mut [u32], row: u32, numbers: [u32; TREE_ROW])
    ensures { trees.new ≡ put row numbers trees.old }
{
    rows::set_row(trees, row as usize, numbers);
}

// The open rows of a chain of n links whose innermost start is event i. The outermost node's is `first`.
pub fn open_rows(
    trees: &mut [u32],
    events: &[u32],
    i: usize,
    n: u32,
    first: u32,
    byte: u32,
    parent: u32,
    children: u32,
)
    ensures { trees.new
        ≡ open_rows n events.now i first byte parent children trees.old }
{
    let mut j = i;
    for left in (0..n).rev() {
        let up = word::add(first, left);
        let inner = word::add(up, 1);
        let kind = rows::field::<EVENT_ROW>(events, j, EVENT_ARGUMENT);
        write_row(trees, inner, [NODE, kind, byte, 0, up]);
        j = link(events, j).unwrap_or(j);
    }
    let kind = rows::field::<EVENT_ROW>(events, j, EVENT_ARGUMENT);
    write_row(trees, first, [NODE, kind, byte, children, parent]);
}
