//! Programs as bytes and as text: the spellings of a program, and its listing.
//!
//! [`encode`] spells a [`Program`], in version 2 of the bytes. [`decode`] reads bytes of version 1 or 2
//! that spell one, and refuses any other. [`disassemble`] lists its instructions. What a program is
//! stands in `wsm_program`, whose types are handed on here.
//!
//! Where `bytes` is, in version 1 or 2, the program that counts the records of two keys in windows of
//! 60 and sums their one field:
//!
//! ```rust
//! use wsm_bytecode::{DecodeRefusal, Instr, SectionId, decode, disassemble, encode};
//!
//! let program = decode(alloc, bytes)?;
//! let update = [Instr::Field(0), Instr::Fold(0), Instr::Return];
//! assert_eq!(rt; program.section(SectionId::Update), update.as_slice());
//!
//! let written = encode(alloc, &program)?; // the one spelling of version 2, which its fifth byte names
//! assert_eq!(rt; written[4], 2);
//! let again = decode(alloc, &written)?; // the same program
//! assert_eq!(rt; encode(alloc, &again)?.as_slice(), written.as_slice());
//! let listing = disassemble(alloc, &program)?; // as `update 0 FIELD 0`, a line for each
//!
//! let cut = decode(alloc, &bytes[..bytes.len() - 1]);
//! assert!(rt; cut.is_err_and(|e| e == DecodeRefusal::Truncated));
//! ```
//!
//! - `reading`: from bytes to a program; `version1` and `version2` read what each has of its own
//! - `writing`: from a program to its bytes
//! - `version`: the versions of the bytes, and their numbers
//! - `tags`: the numbers that stand for shapes, modes, forms, kinds and types
//! - `limits`: what the bytes begin with, and their limits
//! - `listing`: a line of text for each instruction
//! - [`laws`]: what holds of the spellings of every program
#![tactic(auto)]

pub use listing::disassemble;
pub use reading::decode;
pub use writing::encode;
pub use wsm_program::{
    Arithmetic, CellType, Clock, Comparison, Costs, DecodeRefusal, FieldTest, Header, Instr,
    Operands, Program, Section, SectionId,
};

pub mod laws;
mod limits;
mod listing;
mod reading;
mod tags;
mod version;
mod writing;
