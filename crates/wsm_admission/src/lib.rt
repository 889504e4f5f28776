//! The clock of a query and the verdict on each event.
//!
//! [`Admission`] keeps the watermark of each source, the least of them (Akidau et al. 2015) and three
//! counters, and decides on one event after the other. Which events are refused, in which order the
//! rules are tried and what is counted are this project's own rules. No call takes memory.
//!
//! ```rust
//! use wsm_admission::{Admission, Admitted, Clock, Refusal};
//! use wsm_record::{Event, Name, Schema};
//! use wsm_windows::Shape;
//!
//! fn main(rt: HostRuntime) {
//!     let Some(key) = Name::new(b"a") else {
//!         return;
//!     };
//!     let Ok(schema) = Schema::new(rt.alloc(), &[key], &[], &[]) else {
//!         return;
//!     };
//!     let clock = Clock {
//!         start: 0,
//!         skew: 100,
//!         lateness: 10,
//!         from_window: false,
//!         records: 1000,
//!     };
//!     let mut admission = Admission::new(clock, &schema);
//!     let shape = Shape::Fixed(60);
//!     let verdict = admission.decide(&schema, &shape, &Event::Watermark { source: Some(0), time: 60 });
//!     assert_eq!(rt; verdict, Ok(Admitted::Watermark { old: 0, new: 60 }));
//!
//!     let record = Event::Record { key: Some(0), time: 49, values: Vec::new(rt.alloc()) };
//!     let verdict = admission.decide(&schema, &shape, &record);
//!     assert_eq!(rt; verdict, Err(Refusal::Late)); // 49 + 10 is before 60
//!     assert_eq!(rt; admission.late(), 1);
//! }
//! ```
#![tactic(auto)]

pub use admission::{Admission, has_fitting_values};
pub use clock::Clock;
pub use verdict::{Admitted, Refusal};

mod admission;
mod clock;
mod marks;
mod verdict;
