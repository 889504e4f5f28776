//! Runs queries and programs over rows of text, from the bytes of both to the bytes of the answer.
//!
//! [`run_query`] reads and checks the text of a query, compiles it, has the program verified, takes
//! the turn of each row of a reader, and gives a device the lines of each turn and a last one.
//! [`run_program`] does so from the bytes of a program. [`run_over`] takes either, an [`Input`], and [`run_input`] beside it
//! [`Rows`] that stay with the caller, and says what ended them; [`accepted_of`] gives the program of one.
//! A whole program:
//!
//! ```rust
//! use wsm::{End, Fault, Guarded, InputRefusal, Position, compile_text, run_program, run_query};
//!
//! const QUERY: &[u8] = b"KEYS a, b;
//! FIELD n INT 0..100;
//! START 0; SKEW 100; LATENESS 10; RECORDS 1000;
//! SELECT COUNT(*), SUM(n)
//! WINDOW FIXED 60 ACCUMULATING
//! EMIT PANES;";
//!
//! // Two records, and a watermark that comes to the end of their window.
//! const ROWS: &[u8] = b"r,a,5,7\nr,a,59,3\nw,60\n";
//!
//! const LINES: &[u8] = b"pane,on_time,a,0,60,2,10\nend,3,2,0,0,1\n";
//!
//! fn main(rt: HostRuntime) -> Result<(), End> {
//!     let alloc = rt.alloc();
//!     let mut out = Guarded::new(Vec::new(alloc));
//!     let totals = run_query(alloc, QUERY, ROWS, &mut out)?;
//!     assert_eq!(rt; (totals.rows, totals.panes), (3, 1));
//!     assert_eq!(rt; out.into_writer().as_slice(), LINES);
//!
//!     // The bytes of the query's program write the same.
//!     let program = compile_text(alloc, QUERY)?;
//!     let mut out = Guarded::new(Vec::new(alloc));
//!     run_program(alloc, &program, ROWS, &mut out)?;
//!     assert_eq!(rt; out.into_writer().as_slice(), LINES);
//!
//!     // A text that is no query ends with its first fault, and nothing is written.
//!     let why = InputRefusal::Text(Fault::Unexpected, Position { line: 1, column: 8 });
//!     let mut out = Guarded::new(Vec::new(alloc));
//!     let end = run_query(alloc, b"KEYS a b;", ROWS, &mut out);
//!     assert!(rt; end.is_err_and(|end| end == End::Refused(why)));
//!     assert!(rt; out.into_writer().is_empty());
//!     Ok(())
//! }
//! ```
//!
//! `Guarded::new(io::writer(&rt))` is the standard output, and a file or the standard input may stand
//! for the rows.
//!
//! What the device takes is exactly the text that the query means for the rows that were read, or a
//! beginning of it where the run ends early, and the [`End`] says why. A text that is no query ends
//! with its first [`InputRefusal`], a program that is not accepted with the verifier's rejection, and then
//! nothing is written.
//!
//! `turns` keeps what the rows so far come to, and `run` goes from the reader to the device. What goes from
//! texts and bytes to programs, as [`compile_text`], [`migrate`] and [`judge_input`], stands in `wsm_inputs`, and
//! is handed on.
#![tactic(auto)]

pub use run::{run_input, run_over, run_program, run_query};
pub use wsm_check::{CheckFault, CodeLimit, Part};
pub use wsm_csv::{Device, DeviceFault, Guarded, Rows, write_out};
pub use wsm_deal::{Ahead, Part as DealtPart, Shares, SharesRefusal, deal, deal_over};
pub use wsm_engine::Totals;
pub use wsm_inputs::{
    End, Input, InputRefusal, REJECTED_STATUS, accepted_of, compile_text, judge, judge_input,
    migrate, status_of,
};
pub use wsm_program::DecodeRefusal;
pub use wsm_rules::Rejection;
pub use wsm_tokens::{Fault, Position};

mod run;
mod turns;
