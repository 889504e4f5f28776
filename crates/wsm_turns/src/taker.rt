//! Who takes what goes on.

ghost use Rattle.std.specs.Prelude.{◌≡◌, ◌++◌, [], ◌∷◌, List, OnOk};
ghost use Rattle.wsm_record.specs.Event.{event_of};
ghost use Rattle.wsm_turns.specs.Numbered.{Numbered};

use std::alloc::AllocError;
use wsm_record::Event;

/// Who takes the events that go on, one behind the other.
pub trait Taker {
    ghost use Rattle.std.specs.Prelude.{◌++◌, [], ◌∷◌, List, OnOk};
    ghost use Rattle.wsm_record.specs.Event.{event_of};
    ghost use Rattle.wsm_turns.specs.Numbered.{Numbered};

    /// From one state to another these events were taken, the first first.
    ghost took: { Self → Self → List Numbered → Type 0 };

    /// Takes an event of the line of a number.
    ///
    /// # Errors
    ///
    /// Memory was refused.
    fn take(&mut self, number: u64, event: &Event) -> Result<(), AllocError>
        ensures { OnOk result (took self.old self.new (record { number = number; event = event_of event.now } ∷ [])) };

    /// Where none was taken nothing has changed.
    ghost none: { (t : Self) → took t t [] };

    /// Some were taken, and then others.
    ghost join: { (a b c : Self) (gs hs : List Numbered) → took a b gs → took b c hs → took a c (gs ++ hs) };
}
