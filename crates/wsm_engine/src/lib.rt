//! The engine: the turns of a verified program, from an event to the rows that it writes.
//!
//! An [`Engine`] keeps the watermark, the counts, the panes that are held and, where a stream of the
//! relation is written, what changed or what stands. [`Engine::feed`] takes an event, decides on it,
//! puts a selected record into the pane of each of its windows, and fires the panes that its triggers
//! or an accepted watermark call for. All room is reserved by [`Engine::open`], so no later call takes
//! memory. A whole program, from the text of a query to the line of a pane:
//!
//! ```rust
//! use std::alloc::{AllocError, Global};
//! use wsm_check::check;
//! use wsm_compiler::compile;
//! use wsm_csv::rows_text;
//! use wsm_engine::Engine;
//! use wsm_query::parse;
//! use wsm_record::{Event, Value};
//! use wsm_verifier::verify;
//!
//! const QUERY: &[u8] = b"KEYS a, b;
//! FIELD n INT 0..100;
//! START 0; SKEW 100; LATENESS 10; RECORDS 1000;
//! SELECT COUNT(*), SUM(n)
//! WINDOW FIXED 60 ACCUMULATING
//! EMIT PANES;";
//!
//! // There is none where the text is no query, its program isn't accepted, or memory runs out.
//! fn engine_of(alloc: Global, text: &[u8]) -> Option<Engine> {
//!     let query = parse(alloc, text).ok()?;
//!     let checked = check(alloc, query).ok()?;
//!     let program = compile(alloc, checked).ok()?;
//!     let verified = verify(alloc, program).ok()?;
//!     Engine::open(alloc, verified).ok()
//! }
//!
//! fn main(rt: HostRuntime) -> Result<(), AllocError> {
//!     let Some(mut engine) = engine_of(rt.alloc(), QUERY) else {
//!         return Err(AllocError);
//!     };
//!     for (time, number) in [(5, 7), (59, 3)] {
//!         let values = [Value::Int(number)].to_vec(rt.alloc())?;
//!         let reply = engine.feed(&Event::Record { key: Some(0), time, values });
//!         assert_eq!(rt; (reply.refusal, reply.record_steps), (None, 5));
//!     }
//!     assert_eq!(rt; engine.held(), 1);
//!
//!     let reply = engine.feed(&Event::Watermark { source: Some(0), time: 60 });
//!     assert_eq!(rt; (reply.refusal, reply.fired), (None, 1));
//!     let mut lines = Vec::new(rt.alloc());
//!     rows_text(engine.schema(), engine.rows(), &mut lines)?;
//!     assert_eq!(rt; lines.as_slice(), b"pane,on_time,a,0,60,2,10\n".as_slice());
//!     assert_eq!(rt; engine.totals().admitted, 2);
//!     Ok(())
//! }
//! ```
#![tactic(auto)]

pub use engine::{Engine, OpenRefusal};
pub use reply::Reply;
pub use wsm_semantics::Totals;

mod acting;
mod deciding;
mod engine;
pub mod laws;
mod opening;
mod reply;
