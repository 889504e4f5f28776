//! Values as text, and back.
//!
//! A value's text is decimal numbers, each with a comma behind it. It has digits and commas alone. What was
//! written comes back, whatever stands behind it: [`Saved`] says so of each type, as a law.
//!
//! | Value | Its numbers |
//! |---|---|
//! | a number | itself |
//! | a number with a sign | the number of the same 64 bits |
//! | a truth | 0, or 1 where it is true |
//! | one or none | 0, or 1 and those of the value |
//! | a list | how many values there are, and those of each |
//! | a value of a record | its kind, 0 to 2, and what it is |
//! | an event | 0, its key, its time and the list of its values; or 1, its source and its time |
//!
//! [`Restoring`] reads such a text value by value.
#![tactic(auto)]

pub use bytes::{restore_bytes, save_bytes};
pub use restoring::Restoring;
pub use saved::{Saved, restore_all, save_all};
pub use saving::{save_flag, save_number, save_signed};

mod bytes;
mod event;
mod restoring;
mod saved;
mod saving;
