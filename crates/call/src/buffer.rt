// A lent buffer is left zero after what was written to it.
ghost use Rattle.std.specs.Prelude.{◌≡◌};
ghost use Rattle.refinement.specs.Ends.{wiped};

// Zero from an index on.
pub fn clear(buffer: &mut [u32], from: usize)
    ensures { buffer.new ≡ wiped from buffer.old }
{
    let kept = from.min(buffer.len());
    buffer[kept..].fill(0);
}
