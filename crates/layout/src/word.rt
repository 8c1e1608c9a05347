// Numbers of 32 bits. Sums wrap, so that no numbers in the lent buffers are unsafe; none wraps on what the parser
// writes.
ghost use Rattle.std.specs.Prelude.{◌≡◌, ◌+◌, ◌-◌, ◌<◌};
ghost use Rattle.definitions.specs.Layout.{TWO_TO_32};
ghost use Rattle.basics.specs.Word.{low};

// How many there are.
const TWO_TO_32: usize = 4294967296;

pub fn wide(x: u32) -> usize
    ensures value { result ≡ x }
    ensures upper_bound { result < TWO_TO_32 }
{
    x as usize
}

pub fn low32(x: usize) -> u32
    ensures { result ≡ low x }
{
    (x % TWO_TO_32) as u32
}

pub fn add(a: u32, b: u32) -> u32
    ensures { result ≡ low (a + b) }
{
    a.wrapping_add(b)
}

// The difference, or 0.
pub fn minus(a: u32, b: u32) -> u32
    ensures { result ≡ a - b }
{
    a.saturating_sub(b)
}
