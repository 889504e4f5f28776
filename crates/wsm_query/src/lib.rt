//! Query texts: from bytes to a tree, and back.
//!
//! [`parse`] gives the tree of a text exactly where the grammar has the text, and else the first
//! fault with its line and column.
//!
//! With this `text`
//!
//! ```text
//! KEYS a, b; FIELD n INT 0..100; START 0; SKEW 100; LATENESS 10; RECORDS 1000;
//! SELECT COUNT(*), SUM(n) WINDOW FIXED 60 ACCUMULATING EMIT PANES;
//! ```
//!
//! a reader of texts can do
//!
//! ```rust
//! use wsm_query::{parse, print};
//! use wsm_tokens::{Fault, ParseRefusal, Position};
//! use wsm_windows::Shape;
//!
//! let query = parse(alloc, text)?;
//! assert_eq!(rt; query.output.shape, Shape::Fixed(60));
//! assert_eq!(rt; query.columns.len(), 2);
//! let printed = print(alloc, &query)?; // parsed again, it gives the same query
//!
//! let position = Position { line: 1, column: 8 };
//! let refusal = ParseRefusal::Text(Fault::Unexpected, position);
//! assert!(rt; parse(alloc, b"KEYS a b;").is_err_and(|e| e == refusal));
//! ```
//!
//! Behind the fields `SOURCES x, y;` may name the sources of watermarks, in [`Query::sources`]. With
//! `LATENESS 10 FROM WINDOW;` lateness counts from the end of a window, which is `from_window` of
//! [`Query::clock`]. The mode, behind the windows, is `ACCUMULATING`, `DISCARDING` or
//! `RETRACTING`.
#![tactic(auto)]

pub use expr::{Expr, Op};
pub use printing::print;
pub use query::{Budget, Output, Query};
pub use reading::parse;
pub use wsm_interval::{Arithmetic, Comparison};

mod clauses;
mod expr;
mod level;
mod parse_expr;
mod print_clauses;
mod print_expr;
mod print_tokens;
mod printing;
mod query;
mod reading;
