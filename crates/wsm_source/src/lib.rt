//! The source of a log's lines: what a text of TOML says, bound to a query.
//!
//! [`describe`] reads the text. The caller reads the files that the description names, that of a zone and
//! that of names. [`bind`] makes of all this the source that `wsm_lines` reads lines by, or answers the
//! first fault.
#![tactic(auto)]

pub use binding::bind;
pub use wsm_description::{
    ClockDescription, DecimalDescription, DefaultValue, Description, Entries, Entry,
    FieldDescription, FieldDescriptions, FormDescription, Format, KeyDescription, KeyNaming,
    NamedClocks, Position, Refusal, Refused, SourceFault, SourceRefusal, TimeDescription, Truths,
    describe,
};

mod binding;
mod field_binding;
mod key_binding;
mod names_part;
mod place_part;
