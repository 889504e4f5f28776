//! The lines that a source writes, with where it stands behind them.

use crate::inflow::{Came, Inflow};
use crate::stop::LiveStop;
use std::alloc::{AllocError, Global};
use std::io::{ErrorKind, Read};
use wsm_fed::Fed;

// How many bytes are asked for at once.
const ASKED: usize = 65_536;

/// A source's bytes, of which those that weren't taken stand in the room from `start` up to `end`.
#[derive(Drop)]
pub struct FedInflow<I> {
    input: I,
    fed: Fed,
    room: Vec<u8>,
    start: usize,
    end: usize,
}

impl<I: Read + Drop> FedInflow<I> {
    /// Before the first byte of a source that goes on from a position.
    pub fn new(
        alloc: Global,
        input: I,
        position: &[u8],
        longest: usize,
    ) -> Result<FedInflow<I>, AllocError> {
        Ok(FedInflow {
            input,
            fed: Fed::new(alloc, position, longest)?,
            room: vec![in alloc; 0; ASKED]?,
            start: 0,
            end: 0,
        })
    }

    // Takes bytes that were read, and answers whether lines may be taken.
    fn take(&mut self) -> Result<bool, LiveStop> {
        let bytes = self.room.get(self.start..self.end).unwrap_or_default();
        match self.fed.take(bytes) {
            Ok(Some(rest)) => {
                self.start = self.end.saturating_sub(rest.len());
                Ok(true)
            }
            Ok(None) => {
                self.start = self.end;
                Ok(false)
            }
            Err(fault) => Err(LiveStop::Fed(fault)),
        }
    }

    // Reads on, again where a signal came in between. Answers how many bytes came.
    fn read(&mut self) -> Result<usize, LiveStop> {
        for _ in 0..u64::MAX {
            match self.input.read(self.room.as_mut_slice()) {
                Ok(count) => return Ok(count),
                Err(error) if error.kind() == ErrorKind::Interrupted => {}
                Err(_) => return Err(LiveStop::Input),
            }
        }
        Err(LiveStop::Input)
    }
}

impl<I: Read + Drop> Inflow for FedInflow<I> {
    fn turn(&mut self) -> Result<Came, LiveStop> {
        if self.take()? {
            return Ok(Came::Lines);
        }
        self.end = self.read()?;
        self.start = 0;
        Ok(if self.end == 0 { Came::End } else { Came::More })
    }

    fn lines(&self) -> &[u8] {
        self.fed.lines()
    }

    fn write_position(&self, text: &mut Vec<u8>) -> Result<(), AllocError> {
        text.extend_from_slice(self.fed.position())
    }

    // What a source has yet to write isn't known.
    fn behind(&mut self) -> Result<u64, LiveStop> {
        Ok(0)
    }
}
