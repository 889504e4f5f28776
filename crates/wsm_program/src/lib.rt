//! Programs of the stream machine: their instructions, their header, and what holds of each.
//!
//! A [`Program`] is a [`Header`] and three sections of instructions: `where` selects records,
//! `update` folds a record into its pane's accumulators, and `fire` computes the row of a pane. A
//! program always names only fields, accumulators and names that its header has, and its numbers
//! lie in their ranges: [`Program::new`] refuses anything else. `wsm_bytecode` has the bytes of a
//! program and its listing.
//!
//! Where `header` declares one field and one accumulator:
//!
//! ```rust
//! use wsm_program::{DecodeRefusal, Instr, Program, SectionId};
//!
//! let selection = vec![in alloc; Instr::PushBool(true), Instr::Return]?;
//! let update = vec![in alloc; Instr::Field(0), Instr::Fold(0), Instr::Return]?;
//! let fire = vec![in alloc; Instr::Count, Instr::Acc(1), Instr::PushBool(true), Instr::Return]?;
//!
//! assert!(rt; Instr::Acc(1).may_stand(SectionId::Fire)); // in no other section
//! let program = Program::new(header, selection, update, fire);
//! assert!(rt; program.is_err_and(|e| e == DecodeRefusal::Operand)); // accumulator 1 isn't there
//! ```
//!
//! - `instr`: the instructions, and what each is
//! - `operands`: what an instruction takes from the stack
//! - `row`: what an instruction is, whatever its argument
//! - `comparison`: the numbers of comparisons
//! - `text`: what a section and an instruction are printed as
//! - `program`: headers and programs
//! - `refusal`: why bytes, or parts, are no program
//! - `judging`: what reading asks of a program, asked of its parts
//! - [`named`]: what an argument or a column may name
#![tactic(auto)]

pub use comparison::{comparison_number, comparison_of_number};
pub use instr::{Argument, Edges, FieldTest, Instr, Opcode, SectionId, kind_of};
pub use operands::Operands;
pub use program::{Costs, Header, Program, Section};
pub use refusal::DecodeRefusal;
pub use wsm_admission::Clock;
pub use wsm_interval::{Arithmetic, Comparison};
pub use wsm_record::CellType;

mod comparison;
mod instr;
mod judging;
pub mod named;
mod operands;
mod program;
mod refusal;
mod row;
mod text;
