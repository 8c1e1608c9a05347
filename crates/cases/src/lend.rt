// The buffers that a call is lent, and what it leaves of them.
ghost use Rattle.std.specs.Prelude.{◌≡◌, ◌↔◌, IsTrue, All, drop, IfOk};
ghost use Rattle.cases.specs.Scanner.{ReadsOn};
ghost use Rattle.cases.specs.Lent.{IsLent, lent};
ghost use Rattle.cases.specs.declared.lend.Tail.TheVariants.{Zeros, Lent};

use crate::scan::Scanner;
use std::alloc::{AllocError, Global};
use std::fmt;

// What each number of a buffer is before a call. No row holds it.
pub const LENT: u32 = 4042322160;

// At most so many numbers of a buffer are lent in a case of a list: no case needs more.
pub const TOKENS: usize = 2048;

pub const EVENTS: usize = 4096;

pub const TREES: usize = 5120;

pub const ERRORS: usize = 128;

pub const REPORTS: usize = 1024;

pub const POOL: usize = 8192;

// How many numbers of each buffer are lent.
#[derive(Clone, Copy)]
pub struct Sizes {
    pub events: usize,
    pub trees: usize,
    pub errors: usize,
    pub reports: usize,
    pub pool: usize,
}

impl Sizes {
    // The next five numbers of a case.
    pub fn read(scanner: &mut Scanner<'_>) -> Self
        ensures { ReadsOn scanner.old scanner.new }
    {
        Sizes {
            events: scanner.number_at_most(EVENTS),
            trees: scanner.number_at_most(TREES),
            errors: scanner.number_at_most(ERRORS),
            reports: scanner.number_at_most(REPORTS),
            pool: scanner.number_at_most(POOL),
        }
    }
}

// A buffer of so many numbers.
pub fn buffer(alloc: Global, size: usize) -> Result<Vec<u32>, AllocError>
    ensures { IfOk result (λ v. v.items ≡ lent size) }
{
    vec![in alloc; LENT; size]
}

// The buffers that every call is lent beside its input.
#[derive(Drop)]
pub struct Buffers {
    pub events: Vec<u32>,
    pub trees: Vec<u32>,
    pub errors: Vec<u32>,
    pub reports: Vec<u32>,
    pub pool: Vec<u32>,
}

impl Buffers {
    pub fn new(alloc: Global, sizes: Sizes) -> Result<Self, AllocError>
        ensures { IfOk result (IsLent sizes) }
    {
        Ok(Buffers {
            events: buffer(alloc, sizes.events)?,
            trees: buffer(alloc, sizes.trees)?,
            errors: buffer(alloc, sizes.errors)?,
            reports: buffer(alloc, sizes.reports)?,
            pool: buffer(alloc, sizes.pool)?,
        })
    }
}

// What a buffer holds from an index on.
#[derive(Clone, Copy, PartialEq, Eq, Debug)]
pub enum Tail {
    // Zeros, or nothing.
    Zeros,
    // Only what was lent.
    Lent,
    Other,
}

// Whether all numbers are this one.
fn are_all(numbers: &[u32], n: u32) -> bool
    ensures { IsTrue result ↔ All (λ x. x ≡ n) numbers.now }
{
    numbers.iter().all(|x| *x == n)
}

impl Tail {
    pub fn of(buffer: &[u32], from: usize) -> Self
        ensures zeros { (result ≡ Zeros) ↔ All (λ n. n ≡ 0) (drop from buffer.now) }
        ensures lent { result ≡ Lent → All (λ n. n ≡ LENT) (drop from buffer.now) }
    {
        let tail = &buffer[from.min(buffer.len())..];
        if are_all(tail, 0) {
            Tail::Zeros
        } else if are_all(tail, LENT) {
            Tail::Lent
        } else {
            Tail::Other
        }
    }
}

// As a number of its own.
impl fmt::Display for Tail {
    fn fmt<W: fmt::Write>(&self, f: &mut fmt::Formatter<W>) -> fmt::Result {
        write!(f, "{}", *self as u32)
    }
}
