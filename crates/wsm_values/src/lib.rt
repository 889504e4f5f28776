//! How a text becomes a number or a time.
//!
//! A [`DecimalForm`] says how a decimal is written, and [`decimal_of`] reads one exactly, in whole parts of one:
//! nothing is rounded and nothing cut. A [`TimeForm`] says how a time is written: as RFC 3339 has it, as a count
//! since 1970, or as a clock in a [`Zone`] shows it, by a pattern; and [`time_of`] reads one, in the [`Unit`] that
//! the query counts. What these texts mean is in `specs/`: `Decimal`, `Fraction`, `Time`, `Rfc3339`, `Local`,
//! `Pattern`, `Clock`, with worked rows.
//!
//! ```rust
//! use wsm_values::{DecimalForm, Fold, LocalForm, TimeForm, Unit, Word, Zone, decimal_of, time_of};
//!
//! let cents = DecimalForm { point: b',', group: Some(b'.'), scale: 2 };
//! assert_eq!(rt; decimal_of(cents, b"1.234,50"), Some(123_450));
//! assert_eq!(rt; decimal_of(cents, b"1,234"), None); // a digit too many
//!
//! let instant = TimeForm::Instant;
//! assert_eq!(rt; time_of(&instant, Unit::Seconds, "2026-03-11T20:00:00+02:00"), Some(1_773_252_000));
//! assert_eq!(rt; time_of(&instant, Unit::Seconds, "2026-03-11T20:00:00+02"), None); // cut off
//!
//! let berlin = Zone::of_table(alloc, bytes)?; // of the file Europe/Berlin of the Time Zone Database
//! let local = TimeForm::Local(LocalForm {
//!     pattern: Word::new(alloc, "%d.%m.%Y %H:%M")?,
//!     fold: Fold::Second,
//!     zone: berlin,
//! });
//! assert_eq!(rt; time_of(&local, Unit::Seconds, "25.10.2026 02:30"), Some(1_792_891_800)); // the later one
//! assert_eq!(rt; time_of(&local, Unit::Seconds, "29.03.2026 02:30"), None); // no clock shows it
//! ```
#![tactic(auto)]

pub use clock::Fold;
pub use decimal::{DecimalForm, decimal_of, plain};
pub use local::LocalForm;
pub use pattern::is_pattern;
pub use rfc3339::is_rfc3339;
pub use time::{TimeForm, Unit, time_of};
pub use word::Word;
pub use zone::{Zone, ZoneFault};

mod clock;
mod decimal;
mod fraction;
mod local;
mod pattern;
mod rfc3339;
mod time;
mod word;
mod zone;
