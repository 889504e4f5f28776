//! Whether a record passes.

use crate::identifiers::Identifiers;
use std::alloc::{AllocError, Global};
use wsm_admission::Clock;
use wsm_doubles::Doubles;
use wsm_windows::Shape;

impl Identifiers {
    ghost use Rattle.std.specs.Prelude.{◌≡◌, ◌<◌, ◌^◌, [], Some, IfOk, ℤ};
    ghost use Rattle.wsm_windows.specs.Windows.{IsShape};
    ghost use Rattle.wsm_doubles.specs.Memory.{Memory, Recalls};
    ghost use Rattle.wsm_turns.specs.Turns.{Setting};
    ghost use Rattle.wsm_turns.specs.Known.{Passes, Remembers};

    /// No record has passed. This takes no memory.
    pub fn new(alloc: Global, clock: Clock, shape: Shape) -> Identifiers
        requires { IsShape shape }
        ensures { (w : Setting) (mark : ℤ) → clock ≡ w.clock → shape ≡ w.shape → Remembers w mark result [] }
    {
        Identifiers {
            doubles: Doubles::new(alloc),
            clock,
            shape,
        }
    }

    /// The identifiers that others have come to, by a query's clock and windows.
    pub fn resume(doubles: Doubles, clock: Clock, shape: Shape) -> Identifiers
        requires { IsShape shape }
        ensures { (w : Setting) (mark : ℤ) (memory : Memory) → clock ≡ w.clock → shape ≡ w.shape → Recalls w.clock w.shape mark doubles memory →
            Remembers w mark result memory }
    {
        Identifiers {
            doubles,
            clock,
            shape,
        }
    }

    /// What is kept of them.
    pub fn doubles(&self) -> &Doubles
        ensures { result.now ≡ self.now.doubles }
    {
        &self.doubles
    }

    /// Whether a record with an identifier passes at a watermark: it is no double. Takes note of it then.
    ///
    /// # Errors
    ///
    /// Memory was refused.
    #[inline(always)]
    pub fn pass(&mut self, identifier: &[u8], time: u64, mark: i64) -> Result<bool, AllocError>
        requires { time < 2 ^ 63 }
        ensures { (w : Setting) (memory : Memory) → Remembers w mark self.old memory → IfOk result (Passes w mark self.new (Some identifier.now) time memory) }
    {
        self.doubles
            .pass(identifier, time as i64, &self.clock, &self.shape, mark)
    }
}
