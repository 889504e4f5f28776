//! Why a program isn't run by parts.

use std::alloc::AllocError;

/// Why a program isn't run by parts.
#[derive(Clone, Copy, Debug, PartialEq, Eq)]
pub enum PartsRefusal {
    /// Memory was refused.
    Memory,
    /// It writes a stream of the relation, and no panes.
    Streams,
    /// Its code reads the key.
    ReadsKey,
}

impl From<AllocError> for PartsRefusal {
    ghost use Rattle.std.specs.Prelude.{◌≡◌};
    ghost use Rattle.wsm_part_engines.specs.declared.refusal.PartsRefusal.TheVariants.{Memory};

    ghost from_gives = { λ _ e. e ≡ Memory };

    fn from(_e: AllocError) -> PartsRefusal {
        PartsRefusal::Memory
    }
}
