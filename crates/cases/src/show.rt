// Numbers as text on standard output.
ghost use Rattle.std.specs.Prelude.{◌≡◌, take};

use std::io::{BufWriter, Stdout, Write};
use std::{fmt, io};

// Standard output behind a buffer.
pub type Out = BufWriter<Stdout>;

// Numbers of a buffer, each after a blank.
#[derive(Clone, Copy)]
pub struct Numbers<'a>(pub &'a [u32]);

impl fmt::Display for Numbers<'_> {
    fn fmt<W: fmt::Write>(&self, f: &mut fmt::Formatter<W>) -> fmt::Result {
        for n in self.0 {
            write!(f, " {n}")?;
        }
        Ok(())
    }
}

// The first so many numbers of a buffer, where it has as many.
pub fn first(buffer: &[u32], count: usize) -> Numbers<'_>
    ensures { result.0.now ≡ take count buffer.now }
{
    Numbers(&buffer[..count.min(buffer.len())])
}

// A line of the first so many after a name; no line where there are none.
pub fn rows(out: &mut Out, name: &str, buffer: &[u32], count: usize) -> io::Result<()> {
    if count == 0 {
        return Ok(());
    }
    writeln!(out, "{name}{}", first(buffer, count))
}
