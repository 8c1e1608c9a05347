// The top-level parts that share a byte with a range. A part ends where its leaves add up to its width; rows of width 0
// that follow share no byte, whatever they belong to.
ghost use Rattle.std.specs.Prelude.{◌≡◌, ℕ, ◌+◌, ◌*◌, ◌/◌, ◌<◌, length, drop};
ghost use Rattle.definitions.specs.Layout.{TREE_ROW, TWO_TO_32};
ghost use Rattle.definitions.specs.Caret.{range, share};
ghost use Rattle.rows.specs.OnePass.{tree_rows_of, starting, found, Classes, AddsUp, Sound};
ghost use Rattle.caret.specs.Walk.{Lists, passed, Starts};

use crate::chain::{Spot, seek};
use crate::list::Listed;
use layout::row::{TREE_ROW, TREE_WIDTH};

fn shares(from: u64, to: u64, start: u64, end: u64) -> bool
    ensures { result ≡ share from to start end }
{
    from < to && from < end && start < to && start < end
}

// The index after the rows, from an index on, whose leaves add up to so many bytes.
fn past(trees: &[u32], index: usize, inside: u32) -> usize
    requires { Classes (tree_rows_of (drop index trees.now))
        × ((room : ℕ) × AddsUp inside room (tree_rows_of (drop index trees.now))) }
    ensures { result ≡ index + TREE_ROW * passed inside (tree_rows_of (drop index trees.now)) }
{
    let mut i = index;
    let mut rest = inside;
    while rest > 0 {
        rest -= trees[i] * trees[i + TREE_WIDTH];
        i += TREE_ROW;
    }
    i
}

// Those that share a byte, from the part on that starts at an index and a byte.
fn sharing_from(
    from: u64,
    to: u64,
    first: usize,
    first_byte: u64,
    trees: &[u32],
    list: &mut [u32],
) -> usize
    requires { Starts trees.now first first_byte × (length (tree_rows_of trees.now) < TWO_TO_32) }
    ensures { Lists (starting from to (first / TREE_ROW) 0 first_byte (tree_rows_of (drop first trees.now)))
        result list.old list.new }
{
    let mut index = first;
    let mut start = first_byte;
    let mut listed = Listed { list, count: 0 };
    while index + TREE_ROW <= trees.len() && start < to {
        let width = trees[index + TREE_WIDTH];
        let end = start + width as u64;
        if shares(from, to, start, end) {
            listed.push((index / TREE_ROW) as u32);
        }
        index = past(trees, index + TREE_ROW, width - trees[index] * width);
        start = end;
    }
    listed.count
}

// In a file of so many bytes. The first part is sought: the first row after the root that has the range's first byte.
pub fn sharing(from: u64, to: u64, size: usize, trees: &[u32], list: &mut [u32]) -> usize
    requires { Sound size (tree_rows_of trees.now) }
    ensures { Lists (found (range from to) size (tree_rows_of trees.now)) result list.old list.new }
{
    if from < size as u64 {
        let top = Spot {
            index: TREE_ROW,
            left: from as u32,
        };
        let spot = seek(trees, top);
        sharing_from(from, to, spot.index, from - spot.left as u64, trees, list)
    } else {
        0
    }
}
