// `1+1+1+..` with 16,000 operators: one forward chain of as many nodes.
use crate::print;
use cases::show::Out;
use std::alloc::{AllocError, Global};
use std::io;

// Number, Plus, each of one byte.
const OPERATION: [u32; 4] = [35, 1, 43, 1];

const OPERATORS: usize = 16000;

// The numbers of all operations, and of the last operand.
const TOKENS: usize = OPERATORS * 4 + 2;

// An InfixExpr around all before it: eight rows, with a LiteralExpr of one token inside. The placeholders of the
// operand's own marker are zeros.
const LINK: [u32; 24] = [
    6, 6, 8, 2, 0, 0, 0, 0, 0, 1, 9, 0, 2, 0, 0, 4, 0, 0, 0, 0, 0, 4, 0, 0,
];

// The first InfixExpr, the chain's innermost node, is a link but for its start: here are its first row, and its left
// LiteralExpr.
const FIRST: [u32; 12] = [1, 6, 11, 1, 9, 0, 2, 0, 0, 4, 0, 0];

// The marker that precedes the last node is ignored: two rows of zeros.
const LAST: [u32; 6] = [0; 6];

// The tree's rows: the root, a node for each operator and each number, and a leaf for each token.
const ROWS: usize = 1 + OPERATORS + (OPERATORS + 1) + TOKENS / 2;

// The numbers that are lent for it: one more than it has.
const TREE: usize = ROWS * 5 + 1;

fn tokens(alloc: Global) -> Result<Vec<u32>, AllocError> {
    OPERATION
        .iter()
        .copied()
        .cycle()
        .take(TOKENS)
        .collect(alloc)
}

fn events(alloc: Global) -> Result<Vec<u32>, AllocError> {
    let others = LINK.iter().cycle().take((OPERATORS - 1) * LINK.len());
    FIRST
        .iter()
        .chain(&LINK[3..])
        .chain(others)
        .chain(&LAST)
        .copied()
        .collect(alloc)
}

// What the sink answers, the outermost rows, those around the innermost node, and the last.
pub fn run(alloc: Global, out: &mut Out) -> io::Result<()> {
    let tokens = tokens(alloc)?;
    let events = events(alloc)?;
    let mut trees = vec![in alloc; 7; TREE]?;
    let mut errors = [7];
    let a = sink::finish(3, &tokens, &events, &mut trees, &mut errors);
    print::answer(out, b"16,000 operators", a)?;
    for numbers in [0..25, 79995..80040, 319995..TREE] {
        print::tree(out, trees.get(numbers).unwrap_or(&[]))?;
    }
    print::errors(out, &errors)
}
