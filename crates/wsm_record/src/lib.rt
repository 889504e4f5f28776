//! What a query declares and what a row says: names, types, schemas, values, cells and events.
//!
//! A [`Schema`] is the declared keys, fields and sources of a query. A row of the input is an [`Event`]:
//! a record of one key, with a time and a [`Value`] for each field, or a watermark of one source. Times
//! are whole numbers in the query's own unit of event time.
//!
//! ```rust
//! use wsm_record::{Field, Name, Schema, Ty, Value};
//!
//! fn main(rt: HostRuntime) {
//!     let (Some(a), Some(b)) = (Name::new(b"a"), Name::new(b"b")) else {
//!         return;
//!     };
//!     let Some(n) = Name::new(b"n") else {
//!         return;
//!     };
//!     let field = Field { name: n, ty: Ty::Int { lo: 0, hi: 100 } };
//!     if let Ok(schema) = Schema::new(rt.alloc(), &[a, b], &[field], &[]) {
//!         assert_eq!(rt; schema.key_number(b"b"), Some(1));
//!         assert_eq!(rt; schema.key_number(b"c"), None);
//!         assert!(rt; schema.fits(&[Value::Int(100)]));
//!         assert!(rt; !schema.fits(&[Value::Int(101)])); // above the field's interval
//!     }
//!     assert!(rt; Name::new(b"FIELD").is_none()); // a reserved word
//! }
//! ```
#![tactic(auto)]

pub use cell::Cell;
pub use columns::Columns;
pub use event::{Event, RowFault, Value};
pub use name::{Name, is_word_byte};
pub use names::Names;
pub use schema::{
    DeclaredField, Field, FieldType, Schema, SchemaRefusal, Ty, has_field, is_source_count,
};
pub use words::{CellType, Form, Kind, Mode};

mod cell;
mod columns;
mod event;
pub mod limits;
pub mod marks;
mod name;
mod names;
mod reserved;
mod schema;
mod words;
