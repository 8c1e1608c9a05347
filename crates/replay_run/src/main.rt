// The oracle's answers again: runs each case of standard input, in the form that crates/replay says, and prints the
// whole answer.
// tests/replay/make makes the cases, and what must be printed, from the oracle's answers.
#![tactic(auto)]

use std::io;
use std::io::{BufWriter, Write};

fn main(rt: HostRuntime) -> io::Result<()> {
    let mut out = BufWriter::new(rt.alloc(), rt.stdout())?;
    replay::run(rt.alloc(), rt.stdin(), &mut out)?;
    out.flush()
}
