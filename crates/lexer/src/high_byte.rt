// Cause 9: a byte of 128 or more.
ghost use Rattle.std.specs.Prelude.{◌≡◌, ◌≤◌, leb, length, drop};
ghost use Rattle.std.specs.List.{list_any};
ghost use Rattle.definitions.specs.Text.{high_byte};
ghost use Rattle.lexer.specs.Found.{offset_of};

fn is_any_high(group: &[u8; 8]) -> bool
    ensures { result ≡ list_any (leb 128) group.now }
{
    group.iter().any(|b| 128 <= *b)
}

// A number of bytes at the front that are all below it. Testing eight at a time is twice as fast.
fn low_front(bytes: &[u8]) -> usize
    ensures inside { result ≤ length bytes.now }
    ensures low { high_byte 0 bytes.now ≡ high_byte result (drop result bytes.now) }
{
    let (groups, _) = bytes.as_chunks::<8>();
    let low = groups
        .iter()
        .position(|group| is_any_high(group))
        .unwrap_or(groups.len());
    8 * low
}

// The first one.
pub fn first(bytes: &[u8]) -> Option<usize>
    ensures { offset_of result ≡ high_byte 0 bytes.now }
{
    let low = low_front(bytes);
    bytes[low..].iter().position(|b| 128 <= *b).map(|n| low + n)
}
