// Calls over texts, on the code: what each answers and leaves is printed.
//  A case is a line and then its bytes as they are, with a line end after each. The line has a name and the nine numbers
// that crates/replay says; the first is how many token numbers are lent. Printed is what crates/replay prints of a call,
// and then a line k: how many token rows there are, what their buffer holds after them (`lend::Tail`), and the rows.
// tests/replay/raw_texts makes the cases and what must be printed.
#![tactic(auto)]

ghost use Rattle.std.specs.Prelude.{◌≡◌};
ghost use Rattle.cases.specs.Scanner.{ReadsOn};
ghost use Rattle.definitions.specs.Text.{text_call};
ghost use Rattle.call.specs.Result.{text_result_of};
ghost use Rattle.replay.specs.Held.{held};

use call::text::TextAnswer;
use cases::lend::{Buffers, Tail};
use cases::list::each_case;
use cases::scan::Scanner;
use cases::show::{Out, first};
use cases::{lend, read};
use dt_parser::text::dt_parse_text;
use layout::row::TOKEN_ROW;
use replay::head::Head;
use replay::left;
use std::alloc::Global;
use std::io;
use std::io::{BufWriter, Write};

// The call on a text.
fn parse_text(head: Head, bytes: &[u8], tokens: &mut [u32], lent: &mut Buffers) -> TextAnswer
    ensures { text_result_of result tokens.new (held lent.new)
        ≡ text_call head.entry head.setting bytes.now tokens.old (held lent.old) }
{
    dt_parse_text(
        head.entry,
        head.setting,
        bytes,
        tokens,
        &mut lent.events,
        &mut lent.trees,
        &mut lent.errors,
        &mut lent.reports,
        &mut lent.pool,
    )
}

fn show_rows(out: &mut Out, tokens: &[u32], count: usize) -> io::Result<()> {
    let numbers = count.saturating_mul(TOKEN_ROW);
    let after = Tail::of(tokens, numbers);
    writeln!(out, "k {count} {after}{}", first(tokens, numbers))
}

fn case(alloc: Global, out: &mut Out, scanner: &mut Scanner<'_>) -> io::Result<()>
    ensures { ReadsOn scanner.old scanner.new }
{
    let name = scanner.until(b' ');
    let head = Head::read(scanner);
    scanner.bytes(1);
    let bytes = scanner.bytes(head.bytes);
    let mut tokens = lend::buffer(alloc, head.token_numbers)?;
    let mut lent = Buffers::new(alloc, head.lent)?;
    let text = parse_text(head, bytes, &mut tokens, &mut lent);
    left::show(
        out,
        name,
        text.answer,
        lend::TREES,
        &lent.events,
        &lent.trees,
        &lent.errors,
        &lent.reports,
        &lent.pool,
    )?;
    show_rows(out, &tokens, text.token_count)
}

fn main(rt: HostRuntime) -> io::Result<()> {
    let alloc = rt.alloc();
    let mut out = BufWriter::new(alloc, rt.stdout())?;
    let list = read::at_most(alloc, rt.stdin(), read::MOST)?;
    each_case(&list, |scanner| case(alloc, &mut out, scanner))?;
    out.flush()
}
