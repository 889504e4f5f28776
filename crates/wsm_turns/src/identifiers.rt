//! Identifiers of records that passed.

ghost use Rattle.wsm_windows.specs.Windows.{IsShape};

use wsm_admission::Clock;
use wsm_doubles::Doubles;
use wsm_windows::Shape;

/// The identifiers of records that passed, each until a record of its time would be late by a query's clock and windows.
#[derive(Drop)]
pub struct Identifiers {
    pub(crate) doubles: Doubles,
    pub(crate) clock: Clock,
    pub(crate) shape: Shape,
    ghost windows: { IsShape shape },
}
