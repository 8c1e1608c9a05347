// Queries of a source file, on the code: what each answers and leaves is printed.
//  A case is a line and then its bytes as they are, with a line end after each. The line has a name, fourteen numbers,
// and the token numbers. The first nine numbers are those that crates/replay says, with the query in the entry's place:
// 1 for the caret and 2 for a range. Then comes how many numbers of the list are lent; and the two 64-bit numbers of
// the query, each as two 32-bit numbers, high then low: an offset and 0, or first byte and end. Printed is what
// crates/replay prints of a call, and then a line q: how many row numbers are listed, what their buffer holds after
// them (`lend::Tail`), and the numbers.
//  tests/replay/queries makes the cases and what must be printed. Those of 65,537 blanks are here: that is one row more
// than a call takes, and every buffer is left as it was, the list too.
#![tactic(auto)]

mod asked;

ghost use Rattle.cases.specs.Scanner.{ReadsOn};

use crate::asked::Asked;
use caret::Query;
use cases::lend::{Buffers, Sizes, Tail};
use cases::list::each_case;
use cases::scan::Scanner;
use cases::show::{Out, first};
use cases::{blanks, lend, read};
use replay::head::Head;
use replay::left;
use std::alloc::Global;
use std::io;
use std::io::{BufWriter, Write};

fn show(
    alloc: Global,
    out: &mut Out,
    name: &[u8],
    asked: Asked,
    bytes: &[u8],
    tokens: &[u32],
) -> io::Result<()> {
    let mut lent = Buffers::new(alloc, asked.lent)?;
    let mut list = lend::buffer(alloc, asked.list)?;
    let listed = asked.call(bytes, tokens, &mut lent, &mut list);
    left::show(
        out,
        name,
        listed.answer,
        lend::TREES,
        &lent.events,
        &lent.trees,
        &lent.errors,
        &lent.reports,
        &lent.pool,
    )?;
    let count = listed.list_count;
    let after = Tail::of(&list, count);
    writeln!(out, "q {count} {after}{}", first(&list, count))
}

fn case(alloc: Global, out: &mut Out, scanner: &mut Scanner<'_>) -> io::Result<()>
    ensures { ReadsOn scanner.old scanner.new }
{
    let name = scanner.until(b' ');
    let head = Head::read(scanner);
    let asked = Asked::read(head, scanner);
    let tokens = scanner.numbers(alloc, head.token_numbers)?;
    scanner.bytes(1);
    let bytes = scanner.bytes(head.bytes);
    show(alloc, out, name, asked, bytes, &tokens)
}

// A query of 65,537 blanks.
fn blank_file(alloc: Global, out: &mut Out, name: &str, query: Query) -> io::Result<()> {
    let asked = Asked {
        query,
        setting: 0,
        lent: Sizes {
            events: 9,
            trees: 9,
            errors: 9,
            reports: 9,
            pool: 9,
        },
        list: 5,
    };
    let bytes = blanks::bytes();
    let tokens = blanks::tokens();
    show(alloc, out, name.as_bytes(), asked, &bytes, &tokens)
}

fn main(rt: HostRuntime) -> io::Result<()> {
    let alloc = rt.alloc();
    let mut out = BufWriter::new(alloc, rt.stdout())?;
    let list = read::at_most(alloc, rt.stdin(), read::MOST)?;
    each_case(&list, |scanner| case(alloc, &mut out, scanner))?;
    let queries = [
        ("65537-blanks-caret", Query::Caret(0)),
        ("65537-blanks-range", Query::Range(0, 1)),
    ];
    for (name, query) in queries {
        blank_file(alloc, &mut out, name, query)?;
    }
    out.flush()
}
