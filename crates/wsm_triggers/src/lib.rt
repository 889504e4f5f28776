//! Triggers: whether a pane fires on the turn of a record or of a watermark, and as which kind.
//!
//! Firings early, on time and late, over all records of a pane or over those that no firing showed,
//! are those of the Dataflow Model (Akidau et al. 2015). Their exact conditions and the final firing
//! are this project's own. Nothing here takes memory.
//!
//! ```rust
//! use wsm_record::Mode;
//! use wsm_triggers::{Trigger, on_record, on_watermark};
//! use wsm_windows::PaneKind;
//!
//! let trigger = Trigger { early: 2, late: 1 };
//! assert_eq!(rt; on_record(trigger, 0, 60, 1), None); // one record is unshown, not two
//! assert_eq!(rt; on_record(trigger, 0, 60, 2), Some(PaneKind::Early));
//! assert_eq!(rt; on_record(trigger, 60, 60, 1), Some(PaneKind::Late));
//!
//! // Of three records one is unshown when the watermark rises from 0 to 60, the end of the window.
//! let kind = on_watermark(Mode::Accumulating, 0, 60, 60, 10, 3, 1);
//! assert_eq!(rt; kind, Some(PaneKind::OnTime));
//! ```
#![tactic(auto)]

pub use firing::{Trigger, computed_over, on_record, on_watermark};

mod firing;
