//! What a program's bytes begin with, and its limits as the numbers that its bytes have.

use wsm_record::limits;
pub(crate) use wsm_record::limits::{LATEST_TIME, LONGEST_SPAN, MAX_STATED};

/// The first bytes of a program.
pub(crate) const MAGIC: &[u8] = b"WSMP";

/// The most panes that a program states as held.
pub(crate) const MAX_HELD: u64 = limits::MAX_PANES;
/// The most instructions of a section.
pub(crate) const MAX_SECTION: u16 = limits::MAX_SECTION as u16;
/// The most accumulators.
pub(crate) const MAX_ACCUMULATORS: u8 = limits::MAX_ACCUMULATORS as u8;
/// The most columns.
pub(crate) const MAX_COLUMNS: u8 = limits::MAX_COLUMNS as u8;
/// The most fields.
pub(crate) const MAX_FIELDS: u8 = limits::MAX_FIELDS as u8;
/// The most keys, and the most names of a field.
pub(crate) const MAX_NAMES: u16 = limits::MAX_NAMES as u16;
/// The most sources.
pub(crate) const MAX_SOURCES: u8 = limits::MAX_SOURCES as u8;
/// The most bytes of a name.
pub(crate) const MAX_NAME: u8 = limits::MAX_NAME as u8;
