// Whether numbers fit a lent buffer.
ghost use Rattle.std.specs.Prelude.{◌≡◌, true, ◌+◌, ◌≤◌};
ghost use Rattle.machine.specs.Machine.{fits as fits_numbers};

// Whether n more numbers fit a buffer of `len` after the first `count`.
pub fn fits(len: usize, count: usize, n: usize) -> bool
    ensures value { result ≡ fits_numbers len count n }
    ensures n_bound { result ≡ true → count + n ≤ len }
{
    count <= len && n <= len - count
}
