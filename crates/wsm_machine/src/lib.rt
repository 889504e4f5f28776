//! The stack machine that runs the sections of a program.
//!
//! A [`Machine`] runs the sections of verified programs, on inputs in range: see
//! [`Inputs::in_range`]. Such a run meets no trap and comes to its return within the longest path of
//! its section, and what it answers has the types that the program states and lies in the intervals
//! that the verifier knows. What UPDATE folds stays in 64 bits and in the range that FIRE reads: see
//! [`laws`].
//!
//! [`run_any`] runs a section of any program, verified or not, on [`Inputs`] of the header's types.
//! Every run ends: in its result, or in the first [`Trap`] that holds. Each jump leads forward, so a
//! run executes at most as many instructions as its section has. No run takes memory.
//!
//! Where `verified` is a program that counts the records of a pane and sums their one field:
//!
//! ```rust
//! use wsm_machine::{Inputs, Machine};
//! use wsm_program::SectionId;
//! use wsm_record::{Cell, Value};
//!
//! let inputs = Inputs { key: 0, values: &[], count: 2, accs: &[Value::Int(10)] };
//! assert!(rt; inputs.in_range(&verified, SectionId::Fire));
//! let mut machine = Machine::open(alloc);
//! let fired = machine.fire(&verified, &inputs); // COUNT, ACC 0, PUSHB 1, RET
//! assert!(rt; fired.emits);
//! assert_eq!(rt; fired.columns, [Cell::Int(2), Cell::Int(10)].as_slice());
//! assert_eq!(rt; fired.steps, 4);
//! ```
#![tactic(auto)]

pub use folds::Folds;
pub use inputs::Inputs;
pub use machine::{Fired, Kept, Machine, Updated};
pub use outcome::{Outcome, Trap};
pub use run::{Ran, run_any};
pub use stack::Stack;

mod cell;
mod folds;
mod frame;
mod inputs;
pub mod laws;
mod machine;
mod operations;
mod outcome;
mod results;
mod run;
mod stack;
mod step;
mod unchecked;
