//! How runs end.

/// Why a step can't be taken. Where several hold, the first decides, in this order: `WrongSection`,
/// `Underflow`, `WrongType`, `FoldTwice`, `ZeroDivisor`, `IntOverflow`, `StackFull`, `BadJump`,
/// `BadReturn`.
#[derive(Clone, Copy, Debug, PartialEq, Eq)]
pub enum Trap {
    /// The stack has fewer values than the instruction pops.
    Underflow,
    /// A 33rd value is pushed.
    StackFull,
    /// An operand has another type than the instruction asks for.
    WrongType,
    /// The answer is no number of 64 bits.
    IntOverflow,
    /// A divisor is 0.
    ZeroDivisor,
    /// A jump is taken to a place that isn't later in the section, or the section ends.
    BadJump,
    /// An accumulator is folded a second time in the run.
    FoldTwice,
    /// The instruction may not stand in this section.
    WrongSection,
    /// At a return the stack isn't the section's result, or an accumulator isn't folded.
    BadReturn,
}

/// How a run ends.
#[derive(Clone, Copy, Debug, PartialEq, Eq)]
pub enum Outcome {
    /// By a return.
    Done,
    /// By a trap.
    Trap(Trap),
}
