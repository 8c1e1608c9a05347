// A source file of blanks of one byte each, one more than a call takes, their token rows, and the trees of such files.
ghost use Rattle.std.specs.Prelude.{◌≡◌, ◌≤◌, ◌/◌, ◌%◌, All, EachIndex, slice_index, length};

use layout::limit::MOST_TOKEN_NUMBERS;
use layout::row::{LEAF, TOKEN_ROW, TREE_ROW};
use layout::row_kind::WHITESPACE;

const NUMBERS: usize = MOST_TOKEN_NUMBERS + TOKEN_ROW;

const BLANKS: usize = NUMBERS / TOKEN_ROW;

// The numbers of a tree of a root and as many blanks as a call takes.
pub const TREE: usize = BLANKS * TREE_ROW;

// A blank's row: its kind, and its length.
const TOKEN: [u32; TOKEN_ROW] = [WHITESPACE, 1];

// A blank's leaf: its class, its kind, its width, its count, and the root's row.
const BLANK_LEAF: [u32; TREE_ROW] = [LEAF, WHITESPACE, 1, 1, 0];

fn filled<T: Copy, const N: usize>(x: T) -> [T; N]
    ensures { All (λ y. y ≡ x) result }
{
    [x; N]
}

pub fn bytes() -> [u8; BLANKS]
    ensures { All (λ b. b ≡ 32) result }
{
    filled(b' ')
}

// A number of the rows: kinds and lengths in turn.
fn number(i: usize) -> u32
    ensures { result ≡ i % 2 }
{
    TOKEN[i % TOKEN_ROW]
}

fn fill(tokens: &mut [u32])
    ensures { EachIndex tokens.new (λ k. slice_index tokens.new k ≡ k % 2) }
{
    for (i, n) in tokens.iter_mut().enumerate() {
        *n = number(i);
    }
}

pub fn tokens() -> [u32; NUMBERS]
    ensures { EachIndex result (λ k. slice_index result k ≡ k % 2) }
{
    let mut tokens = filled(0);
    fill(&mut tokens);
    tokens
}

// How many rows after the root's are a leaf of one blank, up to the first that is not.
pub fn leaves(trees: &[u32]) -> usize
    ensures { result ≤ length trees.now / TREE_ROW }
{
    trees
        .chunks_exact(TREE_ROW)
        .skip(1)
        .take_while(|row| *row == BLANK_LEAF.as_slice())
        .count()
}
