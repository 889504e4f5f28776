//! The edge of the machine: rows in, rows out, and writing that is exact.
//!
//! A [`Device`] is what takes bytes. [`write_out`] gives it a whole text, or a beginning of the text
//! was taken and the device has failed: nothing is written twice, and no fault is told where no write
//! failed. [`Guarded`] makes a device of any writer. [`Rows`] are the rows of a reader, [`read_row`]
//! reads one as an event, [`EventReader`] each in place of the last, and [`row_text`] adds the line of
//! a row that is written.
//!
//! Where `schema` has the keys a and b and a field n of numbers, and `pane` is the pane on time of key
//! b from 0 to 60, with one record and a sum of 3:
//!
//! ```rust
//! use wsm_csv::{Guarded, Rows, read_row, row_text, write_out};
//! use wsm_record::Event;
//!
//! let mut rows = Rows::new(alloc, b"r,b,59,3\nw,60\n".as_slice());
//! assert_eq!(rt; rows.advance(), Ok(true));
//! let event = read_row(alloc, &schema, rows.row());
//! assert!(rt; matches!(event, Ok(Event::Record { key: Some(1), time: 59, .. })));
//!
//! let mut line = Vec::new(alloc);
//! row_text(&schema, &pane, &mut line)?;
//! let mut out = Guarded::new(Vec::new(alloc));
//! assert!(rt; write_out(&mut out, &line).is_ok());
//! assert_eq!(rt; out.into_writer().as_slice(), b"pane,on_time,b,0,60,1,3\n".as_slice());
//! ```
#![tactic(auto)]

pub use device::{Device, DeviceFault, write_out};
pub use event_reader::EventReader;
pub use guarded::Guarded;
pub use row::{RowRefusal, read_row};
pub use rows::{ReadEnd, Rows};
pub use text::{end_text, fault_text, keyed_row_text, refusal_text, row_text, rows_text};
pub use window_text::WindowText;

mod device;
mod event_reader;
mod few_numbers;
mod from_end;
mod guarded;
mod number;
mod row;
mod rows;
mod short_line;
mod text;
mod window_text;
