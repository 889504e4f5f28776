//! The clock and the windows of a query.

ghost use Rattle.wsm_admission.specs.Clock.{IsTimely, IsWithinLimits};

use wsm_admission::Clock;
use wsm_rules::Verified;
use wsm_windows::Shape;

/// The clock of a query and its windows, by which records are late.
#[derive(Clone, Copy)]
pub struct Times {
    /// Its clock.
    pub clock: Clock,
    /// Its windows.
    pub shape: Shape,
    ghost within: { IsWithinLimits clock },
    ghost timely: { IsTimely clock.from_window shape },
}

impl Times {
    ghost use Rattle.std.specs.Prelude.{◌≡◌};

    /// Those of an accepted program.
    pub fn of(verified: &Verified) -> Times
        ensures clock { result.clock ≡ verified.now.header.clock }
        ensures shape { result.shape ≡ verified.now.header.shape }
    {
        let header = verified.program().header();
        Times {
            clock: header.clock,
            shape: header.shape,
        }
    }
}
