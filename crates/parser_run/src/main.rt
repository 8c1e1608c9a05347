// What is pending when every number of a byte is pushed, and the parser's refusals at their exact boundary: what just
// fits, and one number fewer. (Refusal 5, a 65th open call, is the grammar's.)
#![tactic(auto)]

use cases::show::Out;
use layout::token_kind::TokenKind;
use layout::{ByteOffset, TokenIndex};
use parser::matcher::Matcher;
use parser::pending::Pending;
use parser::{NOTHING_REFUSED, Parser, Refused};
use std::io;
use std::io::{BufWriter, Write};

// `a;`: an Ident and a Semicolon of one byte each.
const TOKENS: [u32; 4] = [27, 1, 29, 1];

fn parser<'a>(events: &'a mut [u32], reports: &'a mut [u32], pool: &'a mut [u32]) -> Parser<'a> {
    Parser {
        tokens: &TOKENS,
        events,
        events_written: 0,
        reports,
        reports_written: 0,
        pool,
        pool_written: 0,
        cursor: TokenIndex(0),
        byte: ByteOffset(0),
        mark: TokenIndex(0),
        mark_byte: ByteOffset(0),
        pending: Pending::none(),
        refused: NOTHING_REFUSED,
    }
}

// 0 and 0 where nothing was refused.
fn say(out: &mut Out, refused: Refused) -> io::Result<()> {
    let (number, place) = (refused.number, refused.place.0);
    writeln!(out, ": refusal {number}, place {place}")
}

// So many numbers pushed after a token, from 0 on and after 255 from 0 again: how many are pending, and how many of
// them are different.
fn expectations(out: &mut Out, n: usize) -> io::Result<()> {
    let (mut events, mut reports, mut pool) = ([0; 3], [0; 0], [0; 0]);
    let mut p = parser(&mut events, &mut reports, &mut pool);
    p.bump();
    for i in 0..n {
        p.add_code((i % 256) as u8);
    }
    let pending = p.pending.count;
    let different = p.pending.different();
    write!(
        out,
        "numbers pushed {n}, pending {pending}, different {different}"
    )?;
    say(out, p.refused)
}

// A marker and a token: two events, of three numbers each.
fn marker_and_token(out: &mut Out, events: &mut [u32]) -> io::Result<()> {
    let (mut reports, mut pool) = ([0; 0], [0; 0]);
    write!(out, "event numbers {}", events.len())?;
    let mut p = parser(events, &mut reports, &mut pool);
    p.start();
    p.bump();
    say(out, p.refused)
}

// A token, and a report with two expectations: two events, a row of nine numbers, two codes.
fn token_and_report(
    out: &mut Out,
    events: &mut [u32],
    reports: &mut [u32],
    pool: &mut [u32],
) -> io::Result<()> {
    write!(out, "event numbers {}", events.len())?;
    write!(out, ", report numbers {}", reports.len())?;
    write!(out, ", pool numbers {}", pool.len())?;
    let mut p = parser(events, reports, pool);
    p.bump();
    p.expect(Matcher::Either(TokenKind::Equals, TokenKind::LCurly));
    say(out, p.refused)
}

fn main(rt: HostRuntime) -> io::Result<()> {
    let mut out = BufWriter::new(rt.alloc(), rt.stdout())?;
    // The kinds; lexical errors and what else is no expectation; the others; every number, and every number twice.
    for n in [61, 101, 109, 256, 512] {
        expectations(&mut out, n)?;
    }
    // Both events, one number fewer, the first event alone, and one number fewer.
    marker_and_token(&mut out, &mut [0; 6])?;
    marker_and_token(&mut out, &mut [0; 5])?;
    marker_and_token(&mut out, &mut [0; 3])?;
    marker_and_token(&mut out, &mut [0; 2])?;
    // All fits; the row is too long; the pool is too short; and where neither fits, the first refusal stays.
    token_and_report(&mut out, &mut [0; 6], &mut [0; 9], &mut [0; 2])?;
    token_and_report(&mut out, &mut [0; 6], &mut [0; 8], &mut [0; 2])?;
    token_and_report(&mut out, &mut [0; 6], &mut [0; 9], &mut [0; 1])?;
    token_and_report(&mut out, &mut [0; 5], &mut [0; 8], &mut [0; 2])?;
    out.flush()
}
