//! What a source says: a text of TOML, as plain structs and enums with what it leaves out filled in.
//!
//! A *source* says where in the lines of a log the key, the time and the fields of a query stand, and how
//! they are written. [`describe`] reads its text and answers the first fault, with the key that it is
//! about. What the text says of a query's own names is judged when the description is bound to one.
#![tactic(auto)]

pub use describing::describe;
pub use description::{
    ClockDescription, DecimalDescription, DefaultValue, Description, Entries, Entry,
    FieldDescription, FieldDescriptions, FormDescription, Format, KeyDescription, KeyNaming,
    NamedClocks, TimeDescription, Truths,
};
pub use place::Position;
pub use refusal::{Refusal, SourceFault, dotted, refuse};
pub use told::{Refused, SourceRefusal};

mod clock_part;
mod describing;
mod description;
mod field_part;
mod format_part;
mod identifier_part;
mod key_part;
mod keys;
mod place;
mod reading;
mod record_part;
mod refusal;
mod time_part;
mod told;
mod whole;
