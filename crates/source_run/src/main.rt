// What a `Source` sees along token rows. Document 01 says: "Trivia are Whitespace, LineComment and BlockComment; an
// error token never is. Peeking moves the cursor past trivia; immediate peeking reads at the cursor and moves nothing."
// So each line of stdout is a token index, the kind of its row, the kind of the first row from there on that is not
// trivia (0, 1, 3), and the index after that row. Past the last row the kind is 64, and an error token is seen as
// Unrecognized, 25.
#![tactic(auto)]

use cases::show::Out;
use layout::TokenIndex;
use layout::row::TOKEN_ROW;
use parser::event::PAST_THE_END;
use source::look;
use std::io;
use std::io::{BufWriter, Write};

fn seen_from(out: &mut Out, tokens: &[u32], at: usize) -> io::Result<()> {
    let s = look(tokens, TokenIndex(at));
    writeln!(out, " {at} {} {} {}", s.immediate, s.kind, s.next.0)
}

// From every token index, the end included.
fn along(out: &mut Out, name: &str, tokens: &[u32]) -> io::Result<()> {
    writeln!(out, "{name}")?;
    for at in 0..=tokens.len() / TOKEN_ROW {
        seen_from(out, tokens, at)?;
    }
    Ok(())
}

fn texts(out: &mut Out) -> io::Result<()> {
    // At index 1 the test for a colon sees the AtSign, 32, past the blank: no report. An immediate one sees the blank.
    along(
        out,
        "a @1 {};",
        &[27, 1, 0, 1, 32, 1, 35, 1, 0, 1, 37, 1, 38, 1, 29, 1],
    )?;
    // Comments and blanks, and an error token, 74, between them and a Semicolon, 29.
    along(
        out,
        "/* c */ // l\\n\\ ;",
        &[1, 7, 0, 1, 3, 4, 0, 1, 74, 1, 0, 1, 29, 1],
    )
}

fn edges(out: &mut Out) -> io::Result<()> {
    // The first error token and the last; trivia alone; no row; and the cursor of a parser that has refused.
    along(out, "error tokens", &[64, 1, 0, 1, 74, 1])?;
    along(out, "trivia", &[0, 1, 1, 4, 3, 2])?;
    along(out, "nothing", &[])?;
    seen_from(out, &[27, 1], PAST_THE_END.0)
}

fn main(rt: HostRuntime) -> io::Result<()> {
    let mut out = BufWriter::new(rt.alloc(), rt.stdout())?;
    texts(&mut out)?;
    edges(&mut out)?;
    out.flush()
}
