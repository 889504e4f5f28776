//! The bytes of a source, in whatever pieces they come.

ghost use Rattle.std.specs.Prelude.{◌≡◌, ◌≤◌, ◌+◌, ◌<◌, ◌++◌, ◌∷◌, MatchOption, drop, length, take, vec_len};
ghost use Rattle.wsm_log.specs.LinesOf.{HasNoFeed};

use crate::fault::FedFault;
use crate::held::Held;
use memchr::memchr;
use std::alloc::{AllocError, Global};

// So many bytes of a line tell an `at` from one whose position is too long: `at,`, twenty digits, a comma and 1,025 bytes.
const LEAST: usize = 1100;

/// The lines of a source, of which bytes come in whatever pieces.
#[derive(Drop)]
pub struct Fed {
    held: Held,
    // As much of the line that has begun as is read.
    part: Vec<u8>,
    // So many bytes of a line are read.
    most: usize,
    // Whether the lines that are held were given.
    is_given: bool,
    ghost short: { vec_len part ≤ most },
}

// Where a line of a text ends, if one ends.
fn line_end(text: &[u8]) -> Option<usize>
    ensures within { MatchOption result (HasNoFeed text.now) (λ end. end < length text.now) }
    ensures line { MatchOption result (HasNoFeed text.now) (λ end. HasNoFeed (take end text.now)) }
    ensures parts { MatchOption result (HasNoFeed text.now) (λ end. text.now ≡ take end text.now ++ 10 ∷ drop (end + 1) text.now) }
{
    memchr(b'\n', text)
}

impl Fed {
    ghost use Rattle.std.specs.Prelude.{◌≡◌, ◌++◌, [], false, take, IfErr, IfOk, OnErr, OnOk, option_map};
    ghost use Rattle.wsm_log.specs.LinesOf.{HasNoFeed};
    ghost use Rattle.wsm_fed.specs.Fed.{at_first};
    ghost use Rattle.wsm_fed.specs.Seen.{Ends, Stops, Went, chunk_of, most_for, most_of, part_of, stand_of};

    /// Before the first byte of a source that goes on from a position. Of a line of a log at most `longest` bytes are wanted; at least
    /// two more are given of one that is longer.
    ///
    /// # Errors
    ///
    /// Memory was refused.
    pub fn new(alloc: Global, position: &[u8], longest: usize) -> Result<Fed, AllocError>
        ensures stand { IfOk result (λ f. stand_of f ≡ at_first position.now) }
        ensures part { IfOk result (λ f. part_of f ≡ []) }
        ensures most { IfOk result (λ f. most_of f ≡ most_for longest) }
    {
        let Some(most) = longest.checked_add(3) else {
            return Err(AllocError);
        };
        Ok(Fed {
            held: Held::new(alloc, position)?,
            part: Vec::new(alloc),
            most: most.max(LEAST),
            is_given: false,
        })
    }

    /// Takes bytes up to the first `at` by which lines, or another position, may be taken: [`Fed::lines`] and [`Fed::position`] have them
    /// then, and the bytes that are left are answered. Else all bytes are taken.
    ///
    /// # Errors
    ///
    /// There was no memory, or the bytes break the protocol. Nothing is taken any more then.
    pub fn take<'b>(&mut self, bytes: &'b [u8]) -> Result<Option<&'b [u8]>, FedFault>
        ensures went { IfOk result (λ rest. Went self.old bytes.now self.new (option_map (λ t. t.now) rest)) }
        ensures stops { IfErr result (Stops self.old bytes.now) }
        ensures most { most_of self.new ≡ most_of self.old }
    {
        self.let_go();
        let mut rest = bytes;
        while let Some(end) = line_end(rest) {
            let line = in_front(rest, end);
            rest = behind_line(rest, end);
            match self.end_line(line) {
                Ok(true) => return Ok(Some(rest)),
                Ok(false) => {}
                Err(fault) => return Err(fault),
            }
        }
        self.add(rest)?;
        Ok(None)
    }

    /// The lines that may be taken, each with its line feed.
    pub fn lines(&self) -> &[u8]
        ensures { result.now ≡ (chunk_of self.now).text }
    {
        &self.held.text
    }

    /// The position behind them.
    pub fn position(&self) -> &[u8]
        ensures { result.now ≡ (chunk_of self.now).position }
    {
        &self.held.position
    }

    // Lets go the lines that were given.
    fn let_go(&mut self)
        ensures stand { stand_of self.new ≡ stand_of self.old }
        ensures part { part_of self.new ≡ part_of self.old }
        ensures most { most_of self.new ≡ most_of self.old }
        ensures given { self.new.is_given ≡ false }
    {
        if self.is_given {
            self.held.let_go();
            self.is_given = false;
        }
    }

    // Adds to the line that has begun, as far as it is read.
    fn add(&mut self, piece: &[u8]) -> Result<(), AllocError>
        ensures part { OnOk result (part_of self.new ≡ take (most_of self.old) (part_of self.old ++ piece.now)) }
        ensures held { self.new.held ≡ self.old.held }
        ensures given { self.new.is_given ≡ self.old.is_given }
        ensures most { most_of self.new ≡ most_of self.old }
    {
        let count = piece.len().min(self.most - self.part.len());
        self.part.extend_from_slice(in_front(piece, count))
    }

    // The line that has begun ends with this. Answers whether lines may be taken.
    fn end_line(&mut self, line: &[u8]) -> Result<bool, FedFault>
        requires given { self.old.is_given ≡ false }
        requires line { HasNoFeed line.now }
        ensures ends { Ends self.old line.now self.new result }
        ensures given { IfOk result (λ is_chunk. self.new.is_given ≡ is_chunk) }
        ensures most { most_of self.new ≡ most_of self.old }
    {
        self.add(line)?;
        match self.held.hear(&self.part) {
            Ok(is_chunk) => {
                self.part.clear();
                self.is_given = is_chunk;
                Ok(is_chunk)
            }
            Err(fault) => Err(fault),
        }
    }
}

// What stands in front of a place.
fn in_front(text: &[u8], place: usize) -> &[u8]
    requires { place ≤ length text.now }
    ensures { result.now ≡ take place text.now }
{
    &text[..place]
}

// What stands behind the line that ends at a place.
fn behind_line(text: &[u8], end: usize) -> &[u8]
    requires { end < length text.now }
    ensures { result.now ≡ drop (end + 1) text.now }
{
    &text[end + 1..]
}
