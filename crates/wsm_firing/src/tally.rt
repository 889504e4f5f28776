//! What firings come to.

ghost use Rattle.std.specs.Prelude.{◌≡◌, ◌<◌, ◌+◌, ◌^◌, max};

/// What the firings of a turn come to.
#[derive(Clone, Copy, Debug, PartialEq, Eq)]
pub struct Tally {
    /// How many panes fired.
    pub fired: u64,
    /// The most instructions that a firing executed, 0 where none fired.
    pub steps_max: u64,
    /// How many instructions all of them executed.
    pub steps_total: u64,
}

impl Tally {
    /// No firing.
    pub fn none() -> Tally
        ensures { result ≡ record { fired = 0; steps_max = 0; steps_total = 0 } }
    {
        Tally {
            fired: 0,
            steps_max: 0,
            steps_total: 0,
        }
    }

    /// Counts a firing that executed so many instructions.
    pub(crate) fn count(&mut self, steps: u64)
        requires fired { self.old.fired + 1 < 2 ^ 64 }
        requires steps { self.old.steps_total + steps < 2 ^ 64 }
        ensures { self.new ≡ record { fired = self.old.fired + 1; steps_max = max self.old.steps_max steps; steps_total = self.old.steps_total + steps } }
    {
        self.fired += 1;
        self.steps_max = self.steps_max.max(steps);
        self.steps_total += steps;
    }
}
