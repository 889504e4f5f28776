//! Events of log lines, by a source that says where each value stands and how it is written.
//!
//! A [`Source`] has the form of the lines, JSON, the combined form of access logs, CSV or rows, and the places
//! of the key, the time, the fields, an identifier and a clock. A [`LineReader`] reads line by line what each
//! says: an event of the query's schema, its identifier and the clock that it names, or the first of some
//! [`LineFault`]s. Nothing is guessed, cut or rounded.
//!
//! Where `source` has the key and the time of lines of JSON in `k` and `t`, in seconds, and no field:
//!
//! ```rust
//! use wsm_lines::{LineFault, LineReader, LineRefusal};
//! use wsm_record::Event;
//!
//! let mut lines = LineReader::new(alloc, source);
//! assert_eq!(rt; lines.read(&schema, b"{\"k\":\"a\",\"t\":60}"), Ok(()));
//! assert!(rt; matches!(lines.event(), Event::Record { key: Some(0), time: 60, .. }));
//! let fault = LineRefusal::Fault(LineFault::NoTime);
//! assert_eq!(rt; lines.read(&schema, b"{\"k\":\"a\"}"), Err(fault));
//! ```
#![tactic(auto)]

pub use fault::{LineFault, LineRefusal};
pub use laws::{beginnings_tell, identifiers_are_few_bytes};
pub use reader::LineReader;
pub use source::{
    BoolWords, CsvForm, Field, Fields, Format, KeyForm, KeyNames, Kind, Place, Source, TimeAt,
    Words,
};
pub use table::{Entry, Prefixes, Table};

mod clock_name;
mod event;
mod fault;
mod heading;
mod identifier;
mod laws;
mod line;
mod lookup;
mod members;
mod name_filter;
mod reader;
mod reading;
mod room;
mod rows;
mod scalar;
mod short_text;
mod source;
mod table;
mod tagged;
mod text;
