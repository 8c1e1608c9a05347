// The text of a list of cases, read from the front.
ghost use Rattle.std.specs.Prelude.{◌≡◌, ◌++◌, ◌≤◌, ◌↔◌, IsTrue, length, IfOk, vec_len, take, drop};
ghost use Rattle.cases.specs.Scanner.{ReadsOn};

use std::alloc::{AllocError, Global};

// What is left to read.
#[derive(Drop)]
pub struct Scanner<'a> {
    pub rest: &'a [u8],
}

impl<'a> Scanner<'a> {
    pub fn new(text: &'a [u8]) -> Self
        ensures { result.rest.now ≡ text.now }
    {
        Scanner { rest: text }
    }

    pub fn is_empty(&self) -> bool
        ensures { IsTrue result ↔ (length self.now.rest.now ≡ 0) }
    {
        self.rest.is_empty()
    }

    // So many bytes, where there are as many.
    pub fn bytes(&mut self, n: usize) -> &'a [u8]
        ensures read { result.now ≡ take n self.old.rest.now }
        ensures left { self.new.rest.now ≡ drop n self.old.rest.now }
    {
        let (read, rest) = self.rest.split_at(n.min(self.rest.len()));
        self.rest = rest;
        read
    }

    // The bytes up to the first that does not meet a condition.
    fn bytes_while<F: Fn(u8) -> bool>(&mut self, is_met: F) -> &'a [u8]
        requires { F.IsAlwaysCallable is_met }
        ensures { self.old.rest.now ≡ result.now ++ self.new.rest.now }
    {
        let end = self.rest.iter().position(|b| !is_met(*b));
        self.bytes(end.unwrap_or(self.rest.len()))
    }

    // The bytes before the first of these, or all where there is none.
    pub fn until(&mut self, end: u8) -> &'a [u8]
        ensures { self.old.rest.now ≡ result.now ++ self.new.rest.now }
    {
        self.bytes_while(|b| b != end)
    }

    // The next number, without what stands before it. Of a longer one the 32 low bits are kept; past the last it is 0.
    pub fn number(&mut self) -> u32
        ensures { ReadsOn self.old self.new }
    {
        self.bytes_while(|b| !b.is_ascii_digit());
        // The low four bits of a digit are its value.
        let digits = self.bytes_while(|b| b.is_ascii_digit());
        digits.iter().fold(0u32, |n, b| {
            n.wrapping_mul(10).wrapping_add(u32::from(*b % 16))
        })
    }

    // The next number, but at most another.
    pub fn number_at_most(&mut self, most: usize) -> usize
        ensures upper_bound { result ≤ most }
        ensures left { ReadsOn self.old self.new }
    {
        most.min(self.number() as usize)
    }

    // The next so many numbers.
    pub fn numbers(&mut self, alloc: Global, count: usize) -> Result<Vec<u32>, AllocError>
        ensures count { IfOk result (λ v. vec_len v ≡ count) }
        ensures left { ReadsOn self.old self.new }
    {
        let mut numbers = Vec::new(alloc);
        for _ in 0..count {
            numbers.push(self.number())?;
        }
        Ok(numbers)
    }
}
