//! Code for a checked query.
//!
//! [`compile`] gives the program of a checked query, and [`compile_costed`] also what it needs, for
//! the verifier. [`laws`] says what holds of the program: when it is accepted, what a run of each
//! section ends with, and that by it every input has the lines that the query's text means.
//!
//! With this query as `text`
//!
//! ```text
//! KEYS a, b; FIELD n INT 0..100; START 0; SKEW 100; LATENESS 10; RECORDS 1000;
//! SELECT COUNT(*), SUM(n) WINDOW FIXED 60 ACCUMULATING EMIT PANES;
//! ```
//!
//! the program of a pane is
//!
//! ```rust
//! use wsm_program::{Instr, SectionId};
//! use wsm_check::check;
//! use wsm_compiler::compile;
//! use wsm_query::parse;
//!
//! if let Ok(checked) = check(alloc, parse(alloc, text)?) {
//!     let program = compile(alloc, checked)?;
//!     let fire = [Instr::Count, Instr::Acc(0), Instr::PushBool(true), Instr::Return];
//!     assert_eq!(rt; program.section(SectionId::Fire), fire.as_slice());
//!     assert_eq!(rt; program.header().budget.per_pane, 4); // what it needs, where BUDGET is absent
//! }
//! ```
//!
//! - `expressions`: the code of an expression
//! - `sections`: the sections of a program
//! - `headers`: what a program declares
//! - `compiling`: a program put together, and what it states of its cost
#![tactic(auto)]

pub use compiling::{compile, compile_costed};

mod compiling;
mod expressions;
mod headers;
pub mod laws;
mod sections;
