// Runs the sink and prints what it answers and leaves. Each line of standard input is a case: a name; the root's kind,
// the lengths of the two lent buffers, and how many token numbers and event numbers follow; token rows; event rows. The
// first twelve are document 01's readings that are marked P, then come buffers that just fit or are too short, and last
// rows that no parser writes. After them: `1+1+1+..` with 16,000 operators.
#![tactic(auto)]

mod deep;
mod print;

ghost use Rattle.cases.specs.Scanner.{ReadsOn};

use cases::list::each_case;
use cases::read;
use cases::scan::Scanner;
use cases::show::Out;
use std::alloc::Global;
use std::io;
use std::io::{BufWriter, Write};

// No list is longer, and no case has more numbers of a tree, of errors, tokens and events.
const MOST: u64 = 4096;

const TREES: usize = 80;

const ERRORS: usize = 8;

const TOKENS: usize = 64;

const EVENTS: usize = 192;

// One case, on buffers full of sevens.
fn case(alloc: Global, out: &mut Out, scanner: &mut Scanner<'_>) -> io::Result<()>
    ensures { ReadsOn scanner.old scanner.new }
{
    let name = scanner.until(b'|');
    let kind = scanner.number();
    let mut trees = vec![in alloc; 7; scanner.number_at_most(TREES)]?;
    let mut errors = vec![in alloc; 7; scanner.number_at_most(ERRORS)]?;
    let token_numbers = scanner.number_at_most(TOKENS);
    let event_numbers = scanner.number_at_most(EVENTS);
    let tokens = scanner.numbers(alloc, token_numbers)?;
    let events = scanner.numbers(alloc, event_numbers)?;
    scanner.until(b'\n');
    let a = sink::finish(kind, &tokens, &events, &mut trees, &mut errors);
    print::answer(out, name, a)?;
    print::tree(out, &trees)?;
    print::errors(out, &errors)
}

fn main(rt: HostRuntime) -> io::Result<()> {
    let alloc = rt.alloc();
    let mut out = BufWriter::new(alloc, rt.stdout())?;
    let list = read::at_most(alloc, rt.stdin(), MOST)?;
    each_case(&list, |scanner| case(alloc, &mut out, scanner))?;
    deep::run(alloc, &mut out)?;
    out.flush()
}
