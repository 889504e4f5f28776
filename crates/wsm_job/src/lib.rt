//! What the jobs of the program share: how one ends, the files that it reads and writes whole, the numbers of its words, and what is
//! counted and told beside what it writes.
//!
//! A [`Stop`] is how a job ends early: its text is what the program prints behind its name, and each has its exit status. [`accepted`] and
//! [`input_of`] take a file for a query or a program; [`Counting`] counts the lines that are written, [`write_run`] writes what a run came
//! to where that is asked for, and a [`Teller`] tells on standard error what a log left out.
#![tactic(auto)]

pub use counting::Counting;
pub use files::{accepted, end_of, input_of, read, write_all};
pub use metrics::{Ran, write_rows, write_run};
pub use numbers::{number_in, number_or};
pub use stop::{REFUSED_WORDS, RowsFault, Stop, WordsFault};
pub use teller::Teller;

mod counting;
mod files;
mod metrics;
mod numbers;
mod stop;
mod teller;
