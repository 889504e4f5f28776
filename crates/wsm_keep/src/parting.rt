//! What parts sessions.

ghost use Rattle.std.specs.Prelude.{pos, ◌≤ℤ◌, ◌-ℤ◌};
ghost use Rattle.wsm_windows.specs.Windows.{greatest_span};

/// The gap of sessions, and a time up to which records may go.
#[derive(Clone, Copy)]
pub struct Parting {
    pub gap: i64,
    pub time: i64,
    ghost gap_low: { pos 1 ≤ℤ gap },
    ghost gap_high: { gap ≤ℤ greatest_span },
    ghost time_low: { (pos 0 -ℤ pos 2000000000000) ≤ℤ time },
    ghost time_high: { time ≤ℤ pos 10000000000000000 },
}
