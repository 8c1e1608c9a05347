// What a case's call answers and leaves, as text: a line with its name, number, place and four counts, and what each
// buffer holds after the counted rows; then the rows, a line for each buffer that has some: t trees, x lexical errors, r
// reports, e expectations.
use call::Answer;
use cases::lend::Tail;
use cases::show::{Out, rows};
use layout::row::{ERROR_ROW, REPORT_ROW, TREE_ROW};
use std::io;
use std::io::Write;

fn show_answer(out: &mut Out, name: &[u8], a: Answer) -> io::Result<()> {
    out.write_all(name)?;
    write!(
        out,
        " {} {} {} {} {} {}",
        a.number, a.place, a.tree_count, a.error_count, a.report_count, a.expectation_count,
    )
}

// All of it, but of the tree no more numbers than `most`.
pub fn show(
    out: &mut Out,
    name: &[u8],
    a: Answer,
    most: usize,
    events: &[u32],
    trees: &[u32],
    errors: &[u32],
    reports: &[u32],
    pool: &[u32],
) -> io::Result<()> {
    let tree = a.tree_count.saturating_mul(TREE_ROW);
    let error = a.error_count.saturating_mul(ERROR_ROW);
    let report = a.report_count.saturating_mul(REPORT_ROW);
    let codes = a.expectation_count;
    show_answer(out, name, a)?;
    writeln!(
        out,
        " {} {} {} {} {}",
        Tail::of(events, 0),
        Tail::of(trees, tree),
        Tail::of(errors, error),
        Tail::of(reports, report),
        Tail::of(pool, codes),
    )?;
    rows(out, "t", trees, tree.min(most))?;
    rows(out, "x", errors, error)?;
    rows(out, "r", reports, report)?;
    rows(out, "e", pool, codes)
}
