// The chain of rows from the root to the leaf that owns a byte. In preorder a row starts where the leaves before it
// end, so the rows that have the byte are found by passing over all others.
ghost use Rattle.std.specs.Prelude.{◌≡◌, ◌+◌, ◌<◌, ◌≤◌, length, drop};
ghost use Rattle.definitions.specs.Layout.{TREE_ROW, TWO_TO_32};
ghost use Rattle.definitions.specs.Caret.{caret};
ghost use Rattle.rows.specs.ResultRows.{raw_bytes};
ghost use Rattle.rows.specs.OnePass.{tree_rows_of, holding, found, Classes, Sound};
ghost use Rattle.caret.specs.Walk.{Lists, seek_from};

use crate::list::Listed;
use layout::row::{LEAF, TREE_ROW, TREE_WIDTH};

// A row, by the index of its first number, and how far after the row's start the byte is.
#[derive(Clone, Copy)]
pub struct Spot {
    pub index: usize,
    pub left: u32,
}

// The numbers of two rows: the walk takes two in a turn, which saves half an instruction of six for each row.
const PAIR: usize = 2 * TREE_ROW;

// The first row from one on that has the byte `left` bytes after the start of that one. There is one, so no end of the
// rows is looked for. A row's class is 0 for a node and 1 for a leaf, which alone moves the start.
pub fn seek(trees: &[u32], from: Spot) -> Spot
    requires { (from.left < raw_bytes (tree_rows_of (drop from.index trees.now)))
        × Classes (tree_rows_of (drop from.index trees.now)) }
    ensures value { result ≡ seek_from from.index from.left (tree_rows_of (drop from.index trees.now)) }
    ensures inside { result.index + TREE_ROW ≤ length trees.now }
    ensures onward { from.index ≤ result.index }
{
    let mut i = from.index;
    let mut rest = from.left;
    let mut width = trees[i + TREE_WIDTH];
    while width <= rest {
        rest -= trees[i] * width;
        let next = trees[i + TREE_ROW + TREE_WIDTH];
        if rest < next {
            return Spot {
                index: i + TREE_ROW,
                left: rest,
            };
        }
        rest -= trees[i + TREE_ROW] * next;
        i += PAIR;
        width = trees[i + TREE_WIDTH];
    }
    Spot {
        index: i,
        left: rest,
    }
}

// The rows that have a byte.
fn chain(byte: u32, trees: &[u32], list: &mut [u32]) -> usize
    requires { (byte < raw_bytes (tree_rows_of trees.now)) × Classes (tree_rows_of trees.now)
        × (length (tree_rows_of trees.now) < TWO_TO_32) }
    ensures { Lists (holding 0 byte (tree_rows_of trees.now)) result list.old list.new }
{
    let mut spot = Spot {
        index: 0,
        left: byte,
    };
    let mut listed = Listed { list, count: 0 };
    loop {
        spot = seek(trees, spot);
        listed.push((spot.index / TREE_ROW) as u32);
        if trees[spot.index] == LEAF {
            return listed.count;
        }
        spot.index += TREE_ROW;
    }
}

// Those of an offset, in a file of so many bytes.
pub fn rows_at(offset: u64, size: usize, trees: &[u32], list: &mut [u32]) -> usize
    requires { Sound size (tree_rows_of trees.now) }
    ensures { Lists (found (caret offset) size (tree_rows_of trees.now)) result list.old list.new }
{
    let length = size as u64;
    if offset < length {
        chain(offset as u32, trees, list)
    } else if offset != length {
        0
    } else if size == 0 {
        let mut listed = Listed { list, count: 0 };
        listed.push(0);
        listed.count
    } else {
        chain((size - 1) as u32, trees, list)
    }
}
