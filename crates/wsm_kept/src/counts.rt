//! What a run over rows comes to.

/// What a run over rows comes to. A number stays at the greatest `u64` once it has come to it.
#[derive(Clone, Copy, Debug, PartialEq, Eq)]
pub struct Counts {
    /// The rows.
    pub rows: u64,
    /// The lines that are written, without the end row.
    pub lines: u64,
    /// The records that are taken.
    pub admitted: u64,
}

impl Counts {
    ghost use Rattle.std.specs.Prelude.{◌≡◌};
    ghost use Rattle.wsm_kept.specs.Run.{no_counts};

    /// Those of no rows.
    pub fn none() -> Counts
        ensures { result ≡ no_counts }
    {
        Counts {
            rows: 0,
            lines: 0,
            admitted: 0,
        }
    }
}
