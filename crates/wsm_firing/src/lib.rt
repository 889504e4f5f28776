//! Firings: FIRE run on the panes that fire on a turn, the rows that they write, what stands for
//! them, and the streams of the relation that stands (Arasu et al. 2006).
//!
//! A [`WindowOperator`] has what a turn works on, and its [`WindowState`] what a turn changes. `enter`
//! puts a record into its panes, `fire_by_record` fires those, `fire_by_watermark` those that a rising
//! watermark comes to, and `drop_expired` drops those that are past. Each tells the streams what the relation gains and loses.
//! Which fire is said by the triggers; which row stands for a pane is this project's own rule. Where
//! panes retract, the rows that withdraw what stood come first among those of a turn. No call here takes
//! memory but [`Streams::open`] and [`TurnRows::open`].
//!
//! Where `verified` counts records in windows of 60 and sums their one field, with a lateness of 10,
//! and `held` has room for what it states:
//!
//! ```rust
//! use wsm_firing::{Arrival, Streams, TurnRows, WindowOperator, WindowState};
//! use wsm_record::{Form, Mode, Value};
//!
//! let streams = Streams::open(alloc, Form::Panes, 6)?; // six panes are held at most
//! let rows = TurnRows::open(alloc, Mode::Accumulating, 6)?;
//! let mut state = WindowState { held, streams, rows };
//! let arrival = Arrival { key: 0, time: 5, mark: 0 };
//! state.enter(&verified, arrival, &[Value::Int(7)]);
//! let mut operator = WindowOperator { machine, state };
//! let tally = operator.fire_by_watermark(&verified, 0, 60);
//! assert_eq!(rt; (tally.fired, tally.steps_max), (1, 4));
//! assert_eq!(rt; operator.state.rows.as_slice().len(), 1); // on time, from 0 to 60, with 1 and 7
//! operator.state.drop_expired(60, 10);
//! assert_eq!(rt; operator.state.held.len(), 1); // it is held until the watermark comes to 70
//! ```
#![tactic(auto)]

pub use operator::{Arrival, WindowOperator, WindowState};
pub use streams::Streams;
pub use tally::Tally;
pub use turn_rows::TurnRows;

mod dropping;
mod entering;
mod finding;
mod fire;
mod kinds;
mod operator;
mod record;
mod retracting;
mod run;
mod streams;
mod tally;
mod turn_rows;
mod watermark;
