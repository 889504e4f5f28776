//! From the text of a query, or the bytes of a program, to a program that was judged.
//!
//! [`accepted_of`] gives the accepted program of an [`Input`], or the [`End`] that says why there is none: the first
//! [`InputRefusal`] of a text or of bytes, or the verifier's rejection. [`compile_text`] gives the bytes of a query's
//! program, [`migrate`] those of a program in the version that is written; [`judge`] writes what the verifier says of a
//! program, and [`judge_input`] of that of a query too.
//!
//! ```rust
//! use wsm_csv::Guarded;
//! use wsm_inputs::{End, Input, InputRefusal, compile_text, judge, judge_input};
//! use wsm_tokens::{Fault, Position};
//!
//! const QUERY: &[u8] = b"KEYS a, b;
//! FIELD n INT 0..100;
//! START 0; SKEW 100; LATENESS 10; RECORDS 1000;
//! SELECT COUNT(*), SUM(n)
//! WINDOW FIXED 60 ACCUMULATING
//! EMIT PANES;";
//!
//! // What the program needs for a record, for a pane, and how many panes it may hold.
//! let mut out = Guarded::new(Vec::new(alloc));
//! assert_eq!(rt; judge_input(alloc, Input::Text(QUERY), false, &mut out)?, true);
//! assert_eq!(rt; out.into_writer().as_slice(), b"accepted,5,4,6\n".as_slice());
//!
//! // The bytes of the query's program are judged so too.
//! let program = compile_text(alloc, QUERY)?;
//! let mut out = Guarded::new(Vec::new(alloc));
//! assert_eq!(rt; judge(alloc, &program, false, &mut out)?, true);
//!
//! // A text that is no query ends with its first fault.
//! let why = InputRefusal::Text(Fault::Unexpected, Position { line: 1, column: 8 });
//! let end = compile_text(alloc, b"KEYS a b;");
//! assert!(rt; end.is_err_and(|end| end == End::Refused(why)));
//! ```
//!
//! An [`End`] is also how a run ends early, which stands above: `specs` says what an input means and how a run of it
//! ends, whatever is read (`EndsAs`).
#![tactic(auto)]

pub use compile::compile_text;
pub use end::{End, InputRefusal, REJECTED_STATUS, status_of};
pub use input::Input;
pub use inputs::{accepted_of, costed_of};
pub use judging::{judge, judge_input};
pub use migrating::migrate;
pub use stated::keeps_to_stated;

mod compile;
mod end;
mod input;
mod inputs;
mod judging;
mod migrating;
mod stated;
