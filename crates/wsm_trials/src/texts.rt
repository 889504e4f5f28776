//! Queries of which a byte was changed.

use crate::running::ran;
use std::alloc::Global;
use std::process::Abort;
use std::test::Fail;
use wsm::{End, InputRefusal, Position};
use wsm_given::{BASE, BASE_ROWS, BASE_TEXT, is_whole};

/// How a text was taken.
#[derive(Clone, Copy, Debug, PartialEq, Eq)]
enum Taken {
    /// It is no query; the position stands in the text, or just behind it.
    Misread,
    /// A check refuses its query.
    Unchecked,
    /// The verifier rejects its program.
    Rejected,
    /// It ran the rows to their end.
    Ran,
    /// Something else happened, which is never right.
    Wrong,
}

/// How many texts were taken in each way.
#[derive(Clone, Copy, Debug)]
struct Counts {
    misread: u32,
    unchecked: u32,
    rejected: u32,
    ran: u32,
    wrong: u32,
}

impl Counts {
    fn add(&mut self, taken: Taken) {
        let count = match taken {
            Taken::Misread => &mut self.misread,
            Taken::Unchecked => &mut self.unchecked,
            Taken::Rejected => &mut self.rejected,
            Taken::Ran => &mut self.ran,
            Taken::Wrong => &mut self.wrong,
        };
        *count = count.saturating_add(1);
    }

    fn texts(&self) -> u32 {
        let refused = self
            .misread
            .saturating_add(self.unchecked)
            .saturating_add(self.rejected);
        refused.saturating_add(self.ran).saturating_add(self.wrong)
    }
}

// Whether a position is that of a byte of the text, or the one just behind the last.
fn stands_in(text: &[u8], position: Position) -> bool {
    let mut line = 1usize;
    let mut column = 1usize;
    for byte in text {
        if position.line == line && position.column == column {
            return true;
        }
        if *byte == b'\n' {
            line = line.saturating_add(1);
            column = 1;
        } else {
            column = column.saturating_add(1);
        }
    }
    position.line == line && position.column == column
}

fn tried(alloc: Global, text: &[u8]) -> Taken {
    let (written, end) = ran(alloc, text, BASE_ROWS);
    match end {
        Ok(_) if is_whole(&written) => Taken::Ran,
        Err(_) if !written.is_empty() => Taken::Wrong,
        Err(End::Refused(InputRefusal::Text(_, position))) if stands_in(text, position) =>
            Taken::Misread,
        Err(End::Refused(InputRefusal::Check(..))) => Taken::Unchecked,
        Err(End::Rejected(_)) => Taken::Rejected,
        _ => Taken::Wrong,
    }
}

fn put(text: &mut [u8], place: usize, byte: u8) {
    if let Some(there) = text.get_mut(place) {
        *there = byte;
    }
}

// Each other value of the byte at a place.
fn change_byte(alloc: Global, text: &mut [u8], place: usize, counts: &mut Counts) {
    let Some(old) = text.get(place).copied() else {
        return;
    };
    for byte in 0..=u8::MAX {
        if byte != old {
            put(text, place, byte);
            counts.add(tried(alloc, text));
        }
    }
    put(text, place, old);
}

// Each other value of each byte.
fn change_bytes(alloc: Global, text: &[u8]) -> Result<Counts, Fail> {
    let mut changed = text.to_vec(alloc)?;
    let mut counts = Counts {
        misread: 0,
        unchecked: 0,
        rejected: 0,
        ran: 0,
        wrong: 0,
    };
    for place in 0..text.len() {
        change_byte(alloc, &mut changed, place, &mut counts);
    }
    Ok(counts)
}

#[test]
fn changes_of_the_base_query(rt: HostRuntime) -> Result<(), Fail> {
    let (text, _) = ran(rt.alloc(), BASE, BASE_ROWS);
    assert_eq!(rt; text.as_slice(), BASE_TEXT);
    let counts = change_bytes(rt.alloc(), BASE)?;
    assert_eq!(rt; counts.wrong, 0);
    assert_eq!(rt; counts.texts(), 141 * 255);
    assert!(rt; counts.misread > 0 && counts.unchecked > 0, "{counts:?}");
    assert!(rt; counts.rejected > 0 && counts.ran > 0, "{counts:?}");
    Ok(())
}

// What is left of a text that is cut off is refused just behind its last byte, or at its last token.
#[test]
fn beginnings_of_the_base_query(rt: HostRuntime) {
    for len in 0..BASE.len() {
        let taken = tried(rt.alloc(), &BASE[..len]);
        assert_eq!(rt; taken, Taken::Misread, "{len} bytes");
    }
}
