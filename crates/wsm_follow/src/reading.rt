//! Whole lines of a file, from an offset on.

ghost use Rattle.std.specs.Prelude.{◌≡◌, ◌≤◌, ℕ, List, Some, IfOk, take, vec_len};
ghost use Rattle.wsm_follow.specs.Logs.{StandsAt, bytes_of};

use crate::file::FileId;
use crate::folder::{Folder, FolderFault};
use memchr::memrchr;
use std::alloc::{AllocError, Global};

/// How many bytes are asked for at once.
pub const ASKED: usize = 65_536;

/// What was read of a file from an offset on.
#[derive(Clone, Copy)]
pub enum Found {
    /// Whole lines up to this offset.
    Lines(u64),
    /// No line feed up to this offset, and no more bytes now.
    Part(u64),
}

/// The whole lines that were read last: as many as one read gave, and of a longer one no more than its
/// first bytes and its last read.
#[derive(Drop)]
pub struct Reading {
    text: Vec<u8>,
    room: Vec<u8>,
    // The most bytes that are kept of a line which goes on behind a read.
    most: usize,
    ghost room_size: { vec_len room ≡ 65536 },
    ghost kept_some: { 2 ≤ most },
}

impl Reading {
    ghost use Rattle.std.specs.Prelude.{◌≡◌, ◌≤◌, ◌<◌, ◌+◌, ◌++◌, ℕ, List, Some, IfOk, IfSome, OnOk, length, take, vec_len};
    ghost use Rattle.wsm_follow.specs.Logs.{bytes_of};
    ghost use Rattle.wsm_follow.specs.Reads.{AreWhole, EndsAt, Reads, most_of, text_of};

    /// A reading of nothing. Of a line at most `longest` bytes are wanted; two more are kept.
    ///
    /// # Errors
    ///
    /// Memory was refused.
    pub fn new(alloc: Global, longest: usize) -> Result<Reading, AllocError>
        ensures { IfOk result (λ r. most_of r ≡ longest + 2) }
    {
        let Some(most) = longest.checked_add(2) else {
            return Err(AllocError);
        };
        Ok(Reading {
            text: Vec::new(alloc),
            room: vec![in alloc; 0; ASKED]?,
            most,
        })
    }

    /// The lines that were read last, each with its line feed.
    pub fn text(&self) -> &[u8]
        ensures { result.now ≡ text_of self.now }
    {
        self.text.as_slice()
    }

    /// Reads whole lines of a file from an offset on.
    ///
    /// # Errors
    ///
    /// A call of the folder failed, or memory was refused.
    pub fn read<F: Folder>(
        &mut self,
        folder: &mut F,
        file: FileId,
        start: u64,
    ) -> Result<Found, FolderFault>
        ensures logs { F.logs folder.new ≡ F.logs folder.old }
        ensures most { most_of self.new ≡ most_of self.old }
        ensures read { (known : List ℕ) → bytes_of file (F.logs folder.old) ≡ Some known →
            IfOk result (λ found. Reads (most_of self.new) known start (text_of self.new) found) }
        ensures whole { IfOk result (λ found. AreWhole start (text_of self.new) found) }
        ensures short { OnOk result (length (text_of self.new) ≤ most_of self.new + 65536) }
    {
        self.text.clear();
        let mut at = start;
        'bytes: while at < u64::MAX {
            let count = read_over(folder, file, at, &mut self.room)?;
            if count == 0 {
                return Ok(Found::Part(at));
            }
            if u64::MAX - at < count as u64 {
                return Err(FolderFault::Failed);
            }
            match self.last_feed(count) {
                Some(place) => {
                    self.add(place + 1)?;
                    return Ok(Found::Lines(at + (place as u64 + 1)));
                }
                None => {
                    let wanted = self.most.saturating_sub(self.text.len());
                    self.add(count.min(wanted))?;
                }
            }
            at += count as u64;
        }
        Err(FolderFault::Failed)
    }

    // The last line feed of so many bytes that were read last.
    fn last_feed(&self, count: usize) -> Option<usize>
        requires { count ≤ vec_len self.now.room }
        ensures ends { EndsAt (take count self.now.room.items) result }
        ensures within { IfSome result (λ place. place < count) }
    {
        let bytes = self.room.as_slice();
        memrchr(b'\n', &bytes[..count])
    }

    // Adds so many of the bytes that were read last to the text.
    fn add(&mut self, count: usize) -> Result<(), FolderFault>
        requires { count ≤ vec_len self.old.room }
        ensures text { OnOk result (self.new.text.items ≡ self.old.text.items ++ take count self.old.room.items) }
        ensures room { self.new.room ≡ self.old.room }
        ensures most { self.new.most ≡ self.old.most }
    {
        let bytes = self.room.as_slice();
        Ok(self.text.extend_from_slice(&bytes[..count])?)
    }
}

// Reads once into the room.
fn read_over<F: Folder>(
    folder: &mut F,
    file: FileId,
    at: u64,
    room: &mut Vec<u8>,
) -> Result<usize, FolderFault>
    ensures logs { F.logs folder.new ≡ F.logs folder.old }
    ensures len { vec_len room.new ≡ vec_len room.old }
    ensures within { IfOk result (λ count. count ≤ vec_len room.new) }
    ensures bytes { (known : List ℕ) → bytes_of file (F.logs folder.old) ≡ Some known → IfOk result (λ count. StandsAt known at (take count room.new.items)) }
{
    folder.read_at(file, at, room.as_mut_slice())
}
