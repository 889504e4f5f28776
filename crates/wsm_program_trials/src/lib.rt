//! Trials of programs, of which none takes the machine or a run out of its promises: damaged ones, and such put together at
//! random. There are tests alone.
//!
//! - `running`: runs of programs, and what they come to
//! - `noise`: numbers that look random, the same ones each time
//! - `bytes`: programs of which a byte was changed, or the end cut off
//! - `sections`, `programs`: programs put together at random
//! - `sides`: runs of accepted programs by both machines
#![tactic(auto)]

#[cfg(test)]
mod bytes;
#[cfg(test)]
mod noise;
#[cfg(test)]
mod programs;
#[cfg(test)]
mod running;
#[cfg(test)]
mod sections;
#[cfg(test)]
mod sides;
