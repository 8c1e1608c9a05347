// What a call of the sink answered and left, as text.
use cases::show::{Numbers, Out};
use sink::{NoRoom, Written};
use std::io;
use std::io::Write;

pub fn answer(out: &mut Out, name: &[u8], a: Result<Written, NoRoom>) -> io::Result<()> {
    out.write_all(name)?;
    match a {
        Ok(Written { rows, errors }) => writeln!(out, ": rows {rows}, errors {errors}"),
        Err(NoRoom) => writeln!(out, ": no room"),
    }
}

pub fn tree(out: &mut Out, rows: &[u32]) -> io::Result<()> {
    writeln!(out, "  tree{}", Numbers(rows))
}

pub fn errors(out: &mut Out, errors: &[u32]) -> io::Result<()> {
    writeln!(out, "  errors{}", Numbers(errors))
}
