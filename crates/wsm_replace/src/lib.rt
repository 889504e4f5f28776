//! Replaces a file by one that is written beside it, while nobody else may write it.
//!
//! [`Place`] is where a file lies, and holds its lock. The new file is made beside it, gets the owner and the rights
//! of the old one, is synced, and is renamed to it: so who reads finds the old file whole, or the new one.
//! [`WholeLines`] reads the lines that are to be rewritten, and hands on all that is behind them. [`put`] puts a file of
//! given bytes in the place of another likewise, without a lock and with rights of its own.
//!
//! What a file has no clause can say: of a [`Place`] and of [`put`] it is proved that these calls are safe and end.
//! `trials/keep` and `trials/statuses` try what they do to files. Of [`WholeLines`] it is proved which bytes it reads and hands on.
#![tactic(auto)]

pub use fault::ReplaceFault;
pub use lines::{LinesFault, WholeLines};
pub use place::{Place, size_of};
pub use whole::put;

mod fault;
mod lines;
mod place;
mod whole;
