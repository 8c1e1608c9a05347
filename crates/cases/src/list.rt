// A list of cases, run one after the other.
ghost use Rattle.cases.specs.Scanner.{NoLonger};

use crate::scan::Scanner;
use std::io;

// A case reads its own part of the text; a line end follows it.
pub fn each_case<F: FnMut(&mut Scanner<'_>) -> io::Result<()>>(
    list: &[u8],
    mut case: F,
) -> io::Result<()>
    requires callable { F.IsAlwaysCallable case }
    requires reads { (f : F) (s : _) (r : _) (t : _) → F.post f s r t → NoLonger s.now t.now }
{
    let mut scanner = Scanner::new(list);
    while !scanner.is_empty() {
        case(&mut scanner)?;
        scanner.bytes(1);
    }
    Ok(())
}
