// The text of standard input.
ghost use Rattle.std.specs.Prelude.{◌≡◌, ℕ, ◌+◌, ◌≤◌, ◌<◌, List, ◌++◌, IfOk, IfSome, take, length, vec_len};
ghost use Rattle.std.specs.Io.KnownBytes.{Consumes, IsAtEnd};

use std::alloc::Global;
use std::io;
use std::io::Read;

// No list of cases is longer.
pub const MOST: u64 = 524288;

// Reads until the text is full or the input ends, and answers how many bytes of the text are read. All that is left of
// the text is offered at each read: of a message that does not fit what is offered the end is lost.
pub fn full<R: Read>(input: &mut R, text: &mut [u8]) -> io::Result<usize>
    ensures size { IfOk result (λ n. n ≤ length text.new) }
    ensures bytes { IfOk result (λ n. Consumes (R.remaining input.old) (R.remaining input.new) (take n text.new)) }
    ensures end { IfOk result (λ n. n < length text.new → IsAtEnd (R.remaining input.new)) }
{
    let mut done = 0;
    while done < text.len() {
        let n = input.read(&mut text[done..])?;
        if n == 0 {
            return Ok(done);
        }
        done += n;
    }
    Ok(done)
}

// One read, of no more bytes than are offered. What it gives is put after the text.
fn read_on<R: Read>(input: &mut R, offered: &mut [u8], text: &mut Vec<u8>) -> io::Result<usize>
    ensures size { IfOk result (λ n. vec_len text.new ≤ vec_len text.old + length offered.old) }
    ensures more { IfOk result (λ n. 0 < n → vec_len text.old < vec_len text.new) }
    ensures bytes { IfOk result (λ n. (read : List ℕ) × (text.new.items ≡ text.old.items ++ read)
        × Consumes (R.remaining input.old) (R.remaining input.new) read) }
    ensures end { IfOk result (λ n. n ≡ 0 → 0 < length offered.old → IsAtEnd (R.remaining input.new)) }
{
    let n = input.read(offered)?;
    text.extend_from_slice(&offered[..n])?;
    Ok(n)
}

// Of a limit that may be more than there is memory: room is made as the input goes on. Each read is offered all that
// `offered` has, or that the limit leaves, so that no end of a message that fits it is lost but at the limit.
fn growing<R: Read>(
    alloc: Global,
    input: &mut R,
    most: u64,
    offered: &mut [u8],
) -> io::Result<Vec<u8>>
    requires { 0 < length offered.old }
    ensures size { IfOk result (λ text. vec_len text ≤ most) }
    ensures bytes { IfOk result (λ text. Consumes (R.remaining input.old) (R.remaining input.new) text.items) }
    ensures end { IfOk result (λ text. vec_len text < most → IsAtEnd (R.remaining input.new)) }
{
    let mut text = Vec::new(alloc);
    while (text.len() as u64) < most {
        let room = (offered.len() as u64).min(most - text.len() as u64) as usize;
        if read_on(input, &mut offered[..room], &mut text)? == 0 {
            return Ok(text);
        }
    }
    Ok(text)
}

// So many zeros. A caller knows only how many: a list of 524,288 written out is more than a proof can hold.
fn zeros(alloc: Global, count: usize) -> io::Result<Vec<u8>>
    ensures { IfOk result (λ zeros. vec_len zeros ≡ count) }
{
    Ok(vec![in alloc; 0; count]?)
}

// Up to where the input ends, but no more than so many bytes. Room for all of them is made at once where they are no
// more than MOST, which is what the programs ask for.
pub fn at_most<R: Read + Drop>(alloc: Global, input: R, most: u64) -> io::Result<Vec<u8>>
    ensures size { IfOk result (λ text. vec_len text ≤ most) }
    ensures bytes { IfOk result (λ text. IfSome (R.remaining input) (λ bytes. text.items ≡ take most bytes)) }
{
    let mut input = input;
    if most > MOST {
        let mut offered = zeros(alloc, MOST as usize)?;
        return growing(alloc, &mut input, most, &mut offered);
    }
    let mut text = vec![in alloc; 0; most as usize]?;
    let read = full(&mut input, &mut text)?;
    text.truncate(read);
    Ok(text)
}
