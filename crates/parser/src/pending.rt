// What is pending: `expected` of parser/mod.rs, each expectation once. The codes stand in the order of their arrival;
// beside them, which there are, as words: whether a code is there is a digit, and how many there are is how many digits
// are set.
ghost use Rattle.std.specs.Prelude.{◌≡◌, ◌≤◌};
ghost use Rattle.definitions.specs.Layout.{FIRST_OTHER};
ghost use Rattle.machine.specs.Machine.{none_pending, expect_kind, expect_other, expect, how_many};
ghost use Rattle.parser.specs.View.{pending_of, with_arrived};

use layout::expected::{FIRST_OTHER, KIND_CODES, PAST_OTHERS};
use layout::limit::{Codes, MOST_PENDING};
use layout::word_set;

#[derive(Clone, Copy)]
pub struct Pending {
    // How many there are, and their codes; past them, codes that no longer count.
    pub count: usize,
    pub codes: Codes,
    // The kinds, 0 to 60, and the others, from 101 on.
    pub kinds: u64,
    pub others: u64,
}

impl Pending {
    pub fn none() -> Pending
        ensures { pending_of result ≡ none_pending }
    {
        Pending {
            count: 0,
            codes: [0; MOST_PENDING],
            kinds: 0,
            others: 0,
        }
    }

    pub fn clear(&mut self)
        ensures { pending_of self.new ≡ none_pending }
    {
        self.count = 0;
        self.kinds = 0;
        self.others = 0;
    }

    // The codes that are pending.
    pub fn as_slice(&self) -> &[u8]
        ensures { result.now ≡ (pending_of self.now).codes }
    {
        &self.codes[..self.count.min(MOST_PENDING)]
    }

    // A code arrives. There is always room (crates/pending).
    fn push(&mut self, code: u8)
        ensures { pending_of self.new ≡ with_arrived code (pending_of self.old) }
    {
        if self.count < MOST_PENDING {
            self.codes[self.count] = code;
            self.count += 1;
        }
    }

    fn add_kind(&mut self, code: u8)
        ensures { pending_of self.new ≡ expect_kind code (pending_of self.old) }
    {
        if !word_set::contains(self.kinds, code) {
            self.push(code);
            self.kinds = word_set::with(self.kinds, code);
        }
    }

    fn add_other(&mut self, code: u8)
        requires { FIRST_OTHER ≤ code }
        ensures { pending_of self.new ≡ expect_other code (pending_of self.old) }
    {
        let digit = code - FIRST_OTHER;
        if !word_set::contains(self.others, digit) {
            self.push(code);
            self.others = word_set::with(self.others, digit);
        }
    }

    // An expectation that is pending already is not pushed again. A number that is no expectation is not pushed.
    pub fn add(&mut self, code: u8)
        ensures { pending_of self.new ≡ expect code (pending_of self.old) }
    {
        if code < KIND_CODES {
            self.add_kind(code);
        } else if FIRST_OTHER <= code {
            if code < PAST_OTHERS {
                self.add_other(code);
            }
        }
    }

    // How many there are: the kinds that are set, and the few others.
    pub fn different(&self) -> usize
        ensures { result ≡ how_many (pending_of self.now) }
    {
        word_set::count(self.kinds) + word_set::count(self.others)
    }
}
