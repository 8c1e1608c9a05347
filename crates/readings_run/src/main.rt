// Document 01's readings on the code, and those of the strict setting, of row causes, of each expectation once and of
// parents. Those of a few tokens are cases on standard input, in the form that crates/replay says;
// tests/replay/readings makes them and what must be printed, from the documents and the oracle. Those of 65,536 blanks
// are here: a source file of 65,536 rows of one blank each is accepted, one of 65,537 is refused; an entry that there
// is not comes before that; and an odd count of numbers comes after it.
#![tactic(auto)]

use cases::blanks;
use cases::lend::{Buffers, Sizes};
use cases::show::Out;
use layout::row::TREE_ROW;
use replay::head::Head;
use replay::left;
use std::alloc::Global;
use std::io;
use std::io::{BufWriter, Write};

// A call on so many blanks, in buffers that are as small as they may be but for the tree's.
fn head(token_numbers: usize, bytes: usize, entry: u32, trees: usize) -> Head {
    Head {
        token_numbers,
        bytes,
        entry,
        setting: 0,
        lent: Sizes {
            events: 3,
            trees,
            errors: 3,
            reports: 9,
            pool: 1,
        },
    }
}

// The answer, the root's row, and how many rows of one blank follow it.
fn called(alloc: Global, out: &mut Out, name: &str, head: Head) -> io::Result<()> {
    let bytes = blanks::bytes();
    let tokens = blanks::tokens();
    let mut lent = Buffers::new(alloc, head.lent)?;
    let bytes = &bytes[..head.bytes.min(bytes.len())];
    let tokens = &tokens[..head.token_numbers.min(tokens.len())];
    let answer = head.call(bytes, tokens, &mut lent);
    left::show(
        out,
        name.as_bytes(),
        answer,
        TREE_ROW,
        &lent.events,
        &lent.trees,
        &lent.errors,
        &lent.reports,
        &lent.pool,
    )?;
    if answer.number == 0 {
        writeln!(out, "blanks {}", blanks::leaves(&lent.trees))?;
    }
    Ok(())
}

fn main(rt: HostRuntime) -> io::Result<()> {
    let alloc = rt.alloc();
    let mut out = BufWriter::new(alloc, rt.stdout())?;
    replay::run(alloc, rt.stdin(), &mut out)?;
    // A tree of 65,537 rows just fits; one number fewer does not do.
    let tree = blanks::TREE;
    let calls = [
        ("65536-blanks", head(131072, 65536, 1, tree)),
        ("65536-blanks-small-tree", head(131072, 65536, 1, tree - 1)),
        ("65537-blanks", head(131074, 65537, 1, tree)),
        ("65537-blanks-entry-5", head(131074, 65537, 5, tree)),
        ("65535-blanks-and-a-number", head(131071, 65536, 1, tree)),
        ("65536-blanks-and-a-number", head(131073, 65537, 1, tree)),
    ];
    for (name, head) in calls {
        called(alloc, &mut out, name, head)?;
    }
    out.flush()
}
