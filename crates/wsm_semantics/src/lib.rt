//! What a windowed query means, over every history of events.
//!
//! The meaning is in definitions: which panes are held, which fire, what the relation is at an
//! instant and which rows are written, all taken anew from the whole history. Panes, triggers and
//! accumulation are those of the Dataflow Model (Akidau et al. 2015), the relation and its streams
//! those of CQL (Arasu et al. 2006). The code here is what the definitions speak of and no crate
//! below has: which [`Standing`] a pane has, [`OutRow`], and the [`Totals`] of an input.
//!
//! What each turn writes is said by `all_lines` of `specs/Lines.antt`. `specs/Rows.antt` has worked
//! rows of it, as of the query `base`, which counts and sums in windows of 60: two records of key
//! a, at 5 with 7 and at 59 with 3, and a watermark at 60 give a pane on time, of key 0, from 0 to
//! 60, with 2 and 10, and the end row.
//!
//! ```text
//! written base (a 5 7 ∷ a 59 3 ∷ w 60 ∷ []) ≡ pane OnTime 0 0 60 (2 ∷ 10 ∷ []) ∷ End 3 2 0 0 1 ∷ []
//! ```
//!
//! In code that pane is
//!
//! ```rust
//! use wsm_record::{Cell, Columns};
//! use wsm_semantics::OutRow;
//! use wsm_windows::{PaneKind, Window};
//!
//! let mut columns = Columns::new();
//! columns.push(Cell::Int(2));
//! columns.push(Cell::Int(10));
//! let window = Window { start: 0, end: 60 };
//! let row = OutRow::Pane { kind: PaneKind::OnTime, key: 0, window, columns };
//! ```
#![tactic(auto)]

pub use ending::Totals;
pub use out_row::OutRow;
pub use standing::Standing;

mod ending;
pub mod laws;
mod out_row;
mod standing;
