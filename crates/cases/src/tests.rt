use crate::list::each_case;
use crate::read::{MOST, at_most};
use crate::scan::Scanner;
use std::io;
use std::io::Read;
use std::test::Fail;

#[test]
fn all_is_read_where_the_limit_is_more_than_memory(rt: HostRuntime) -> Result<(), Fail> {
    let text = at_most(rt.alloc(), &b"a b"[..], u64::MAX)?;
    assert_eq!(rt; text.as_slice(), b"a b".as_slice());
    let text = at_most(rt.alloc(), io::repeat(7).take(2 * MOST + 3), u64::MAX)?;
    assert_eq!(rt; text.len() as u64, 2 * MOST + 3);
    Ok(())
}

#[test]
fn no_more_is_read_than_the_limit(rt: HostRuntime) -> Result<(), Fail> {
    for most in [0, 1, MOST - 1, MOST, MOST + 1, 2 * MOST, 2 * MOST + 3] {
        let text = at_most(rt.alloc(), io::repeat(7), most)?;
        assert_eq!(rt; text.len() as u64, most);
    }
    Ok(())
}

// Messages of 100,000 bytes. Of each is lost what does not fit.
#[derive(Drop)]
struct Messages {
    left: usize,
}

impl Read for Messages {
    fn read(&mut self, buf: &mut [u8]) -> io::Result<usize> {
        if self.left == 0 {
            return Ok(0);
        }
        self.left -= 1;
        Ok(buf.len().min(100000))
    }
}

#[test]
fn messages_are_whole_before_the_limit(rt: HostRuntime) -> Result<(), Fail> {
    let text = at_most(rt.alloc(), Messages { left: 4 }, MOST)?;
    assert_eq!(rt; text.len(), 400000);
    let text = at_most(rt.alloc(), Messages { left: 7 }, u64::MAX)?;
    assert_eq!(rt; text.len(), 700000);
    Ok(())
}

// A case may leave any text that is not longer than what was left.
#[test]
fn a_case_leaves_another_text(rt: HostRuntime) -> Result<(), Fail> {
    let mut count = 0u32;
    each_case(b"one two", |scanner: &mut Scanner<'_>| {
        let left = scanner.rest.len();
        scanner.rest = if left > 4 { b"four" } else { b"" };
        count = u32::wrapping_add(count, 1);
        Ok(())
    })?;
    assert_eq!(rt; count, 2);
    Ok(())
}
