// A set of numbers below 64 as a word of 64 bits: n is in it where digit n is 1.
ghost use Rattle.std.specs.Prelude.{◌≡◌, ◌≤◌, count_ones};
ghost use Rattle.basics.specs.WordSet.{WORD_BITS, in_word, put_in_word};

#[tactic(auto, unfolding(basics::specs::WordSet::in_word))]
pub fn contains(set: u64, n: u8) -> bool
    ensures { result ≡ in_word n set }
{
    (set >> (n % 64)) % 2 == 1
}

#[tactic(auto, unfolding(basics::specs::WordSet::put_in_word))]
pub fn with(set: u64, n: u8) -> u64
    ensures { result ≡ put_in_word n set }
{
    set | (1 << (n % 64))
}

// How many numbers are in it.
pub fn count(set: u64) -> usize
    ensures value { result ≡ count_ones set }
    ensures upper_bound { result ≤ WORD_BITS }
{
    set.count_ones() as usize
}
