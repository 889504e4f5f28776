//! Readers whose bytes no clause knows.

use std::io::{self, Read};
use std::test::Fail;
use wsm_log::{Lines, ReadFailed};

// Gives a text so many bytes a call. Each second call is interrupted, and one fails, if it is to.
#[derive(Drop)]
struct Trickle<'a> {
    text: &'a [u8],
    step: usize,
    calls: usize,
    fails_at: Option<usize>,
}

impl Read for Trickle<'_> {
    fn read(&mut self, buf: &mut [u8]) -> io::Result<usize> {
        let call = self.calls;
        self.calls = call.saturating_add(1);
        if Some(call) == self.fails_at {
            return Err(io::Error::from(io::ErrorKind::Other));
        }
        if call % 2 == 1 {
            return Err(io::Error::from(io::ErrorKind::Interrupted));
        }
        let count = self.step.min(self.text.len()).min(buf.len());
        let (given, rest) = self.text.split_at(count);
        for (to, from) in buf.iter_mut().zip(given) {
            *to = *from;
        }
        self.text = rest;
        Ok(count)
    }
}

fn trickle_of(text: &[u8], step: usize, fails_at: Option<usize>) -> Trickle<'_> {
    Trickle {
        text,
        step,
        calls: 0,
        fails_at,
    }
}

#[test]
fn one_byte_at_a_time(rt: HostRuntime) -> Result<(), Fail> {
    let mut lines = Lines::new(rt.alloc(), trickle_of(b"ab\n\nabcdefg\r\nc", 1, None), 4)?;
    for want in [
        b"ab".as_slice(),
        b"".as_slice(),
        b"abcdef".as_slice(),
        b"c".as_slice(),
    ] {
        assert_eq!(rt; lines.advance(), Ok(true));
        assert_eq!(rt; lines.line(), want);
    }
    assert_eq!(rt; lines.advance(), Ok(false));
    assert_eq!(rt; lines.advance(), Ok(false));
    Ok(())
}

// The read that fails is in the middle of the second line.
#[test]
fn a_read_fails(rt: HostRuntime) -> Result<(), Fail> {
    let mut lines = Lines::new(rt.alloc(), trickle_of(b"ab\ncd\n", 2, Some(4)), 4)?;
    assert_eq!(rt; lines.advance(), Ok(true));
    assert_eq!(rt; lines.line(), b"ab".as_slice());
    assert_eq!(rt; lines.advance(), Err(ReadFailed));
    assert_eq!(rt; lines.advance(), Err(ReadFailed));
    Ok(())
}

// There is no room for so long a line.
#[test]
fn too_long(rt: HostRuntime) {
    assert!(rt; Lines::new(rt.alloc(), b"".as_slice(), usize::MAX).is_err());
}
