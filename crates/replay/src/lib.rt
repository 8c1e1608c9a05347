// Cases of the exported call, run one after the other; what each answers and leaves is printed (left.rt).
//  A case is a line and then its bytes as they are, with a line end after each. The line has a name, nine numbers
// (head.rt), and the token numbers.
#![tactic(auto)]

pub mod head;
pub mod left;

ghost use Rattle.cases.specs.Scanner.{ReadsOn};

use crate::head::Head;
use cases::lend::Buffers;
use cases::list::each_case;
use cases::scan::Scanner;
use cases::show::Out;
use cases::{lend, read};
use std::alloc::Global;
use std::io;
use std::io::Read;

fn case(alloc: Global, out: &mut Out, scanner: &mut Scanner<'_>) -> io::Result<()>
    ensures { ReadsOn scanner.old scanner.new }
{
    let name = scanner.until(b' ');
    let head = Head::read(scanner);
    let tokens = scanner.numbers(alloc, head.token_numbers)?;
    scanner.bytes(1);
    let bytes = scanner.bytes(head.bytes);
    let mut lent = Buffers::new(alloc, head.lent)?;
    let answer = head.call(bytes, &tokens, &mut lent);
    left::show(
        out,
        name,
        answer,
        lend::TREES,
        &lent.events,
        &lent.trees,
        &lent.errors,
        &lent.reports,
        &lent.pool,
    )
}

// All cases of a list that is read from here.
pub fn run<R: Read + Drop>(alloc: Global, input: R, out: &mut Out) -> io::Result<()> {
    let list = read::at_most(alloc, input, read::MOST)?;
    each_case(&list, |scanner| case(alloc, out, scanner))
}
