//! The rules by which a program is accepted, and what an accepted one is.
//!
//! A section is a list of instructions whose jumps lead forward alone. What is known at a place is
//! the hull of all that the ways to it carry (Cousot & Cousot 1977): the types on the stack, an
//! interval for each number, and which accumulators are folded. The cost of a section is its longest
//! path, in instructions.
//!
//! Here stand the definitions of this (`specs`), with what follows from them for programs that are
//! accepted, and [`Verified`], which only an accepted program becomes. `wsm_verifier` has the code
//! that judges, and the machines stand beside it.
#![tactic(auto)]

pub use known::Known;
pub use rejection::{Part, Rejection, Rule};
pub use verified::Verified;

mod known;
mod rejection;
mod verified;
