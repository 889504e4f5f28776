//! The lines that aren't taken yet.

ghost use Rattle.std.specs.Prelude.{◌≡◌, ◌++◌, ◌∷◌, [], OnOk};

use crate::fault::{Broken, FedFault};
use crate::said::{at_said, from_said, is_same, line_said};
use std::alloc::{AllocError, Global};
use wsm_journal::is_position;

// So many bytes of lines without an `at` are held, and no more.
const MOST_HELD: usize = 16_777_216;

/// The lines since the last `at`, and the last position that was taken.
#[derive(Drop)]
pub struct Held {
    pub heard: u64,
    pub position: Vec<u8>,
    pub text: Vec<u8>,
    pub count: u64,
}

impl Held {
    ghost use Rattle.std.specs.Prelude.{◌≡◌, IfErr, IfOk, OnOk, option_map};
    ghost use Rattle.wsm_fed.specs.Fed.{at_first, at_step, first_step, heard, line_step, position_step, step};
    ghost use Rattle.wsm_fed.specs.Seen.{Hears, IsBroken, left_in, stand_in};
    ghost use Rattle.wsm_fed.specs.declared.fault.FedFault.TheVariants.{Memory};

    /// Before the first line, where this is the last position that was taken.
    pub fn new(alloc: Global, position: &[u8]) -> Result<Held, AllocError>
        ensures { IfOk result (λ h. stand_in h ≡ at_first position.now) }
    {
        Ok(Held {
            heard: 0,
            position: position.to_vec(alloc)?,
            text: Vec::new(alloc),
            count: 0,
        })
    }

    /// Hears a line, and answers whether it is an `at` by which what is held may be taken, and its position is the last.
    pub fn hear(&mut self, line: &[u8]) -> Result<bool, FedFault>
        ensures { Hears (step (stand_in self.old) line.now) self.new result }
    {
        if self.heard == 0 {
            return self.hear_first(from_said(line));
        }
        match line_said(line) {
            Some(text) => self.hold(text),
            None => self.hear_at(at_said(line)),
        }
    }

    /// Lets go what is held.
    pub fn let_go(&mut self)
        ensures { stand_in self.new ≡ left_in self.old }
    {
        self.text.clear();
        self.count = 0;
    }

    // The next line breaks the protocol.
    fn breaks(&self, why: Broken) -> FedFault
        ensures { IsBroken (stand_in self.now) why result }
    {
        match self.heard.checked_add(1) {
            Some(number) => FedFault::Line(number, why),
            None => FedFault::Memory,
        }
    }

    // Counts a line.
    fn count_line(&mut self) -> Result<(), FedFault>
        ensures counts { OnOk result (stand_in self.new ≡ heard (stand_in self.old)) }
        ensures memory { IfErr result (λ e. e ≡ Memory) }
    {
        match self.heard.checked_add(1) {
            Some(heard) => {
                self.heard = heard;
                Ok(())
            }
            None => Err(FedFault::Memory),
        }
    }

    // Hears the first line, which says this position.
    fn hear_first(&mut self, said: Option<&[u8]>) -> Result<bool, FedFault>
        ensures { Hears (first_step (stand_in self.old) (option_map (λ t. t.now) said.entry)) self.new result }
    {
        let Some(position) = said else {
            return Err(self.breaks(Broken::NoFrom));
        };
        if !is_same(position, &self.position) {
            return Err(FedFault::Other);
        }
        self.count_line()?;
        Ok(false)
    }

    // Holds a line of a log.
    fn hold(&mut self, line: &[u8]) -> Result<bool, FedFault>
        ensures { Hears (line_step (stand_in self.old) line.now) self.new result }
    {
        if MOST_HELD < self.text.len() {
            return Err(self.breaks(Broken::Large));
        }
        self.count_line()?;
        let Some(count) = self.count.checked_add(1) else {
            return Err(FedFault::Memory);
        };
        self.count = count;
        add_line(line, &mut self.text)?;
        Ok(false)
    }

    // Hears an `at` that says this.
    fn hear_at(&mut self, said: Option<(u64, &[u8])>) -> Result<bool, FedFault>
        ensures { Hears (at_step (stand_in self.old) (option_map (λ p. (p.0, p.1.now)) said.entry)) self.new result }
    {
        let Some((count, position)) = said else {
            return Err(self.breaks(Broken::NoLine));
        };
        if count != self.count {
            return Err(self.breaks(Broken::Lines(count, self.count)));
        }
        self.hear_position(position)
    }

    // Hears the position of an `at`.
    fn hear_position(&mut self, position: &[u8]) -> Result<bool, FedFault>
        ensures { Hears (position_step (stand_in self.old) position.now) self.new result }
    {
        if !is_position(position) {
            return Err(self.breaks(Broken::Position));
        }
        self.count_line()?;
        if self.count == 0 && is_same(position, &self.position) {
            return Ok(false);
        }
        self.position.clear();
        self.position.extend_from_slice(position)?;
        Ok(true)
    }
}

// Adds a line and its line feed.
fn add_line(line: &[u8], text: &mut Vec<u8>) -> Result<(), AllocError>
    ensures { OnOk result (text.new.items ≡ text.old.items ++ (line.now ++ 10 ∷ [])) }
{
    text.extend_from_slice(line)?;
    Ok(text.push(b'\n')?)
}
