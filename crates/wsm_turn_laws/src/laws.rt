//! What holds of the turns of lines where records come again and wait for clocks. The contract of each function is the law; a call of
//! it does nothing.

ghost use Rattle.std.specs.Prelude.{List};
ghost use Rattle.wsm_semantics.specs.Query.{Query};
ghost use Rattle.wsm_turns.specs.declared.clocks.Clocks.{Clocks};
ghost use Rattle.wsm_turns.specs.Turns.{Said};
ghost use Rattle.wsm_turn_laws.specs.Delivered.{CountOnce, EndsDeliveries, FeedsDeliveries, Suits, AllLeaveMark};

use wsm_doubles::laws::passes_by_number;
use wsm_semantics::laws::passes_once;

/// A run over the lines of a log with clocks feeds the query what passes of the records that the lines delivered, each as often as it
/// was delivered, in the order in which they go on: a double of a record that waits comes behind it. In the middle of the log those that
/// wait are still to come, and the doubles of these. Where no line's record has a later time than the first of its identifier, none has
/// in that order.
///
/// So whatever the clocks do, no record is counted twice: by the law of deliveries (`passes_once` of `wsm_semantics`) each event has the
/// verdict, and each record counts, as where all doubles are left out.
///
/// Identifiers are told apart from numbers of lines: a record that says nothing of time, or has no identifier, is never left out, so it
/// has one of its own. The clocks begin no sooner than the query, and no line tells a watermark of the first source, which is theirs:
/// else a record that waits may be late as it goes on, and its doubles that were left out would pass.
pub fn feeds_deliveries<F>()
    ensures so_far { (q : Query) (c : Clocks) (lines : List (Said F)) → Suits c q → AllLeaveMark lines → FeedsDeliveries q c lines }
    ensures at_end { (q : Query) (c : Clocks) (lines : List (Said F)) → Suits c q → AllLeaveMark lines → EndsDeliveries q c lines }
    ensures once { (q : Query) (c : Clocks) (lines : List (Said F)) → Suits c q → AllLeaveMark lines → CountOnce q c lines }
{
    passes_by_number();
    passes_once();
}
