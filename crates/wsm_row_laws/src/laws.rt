//! What runs over logs and over rows come to.

ghost use Rattle.std.specs.Prelude.{◌≡◌, ◌+◌, ◌<◌, ◌^◌, ℕ, Bool, List, Option, None, Some, IfOk, IsTrue, length, reverse, unsigned_abs};
ghost use Rattle.wsm_record.specs.Schema.{Declared, is_schema};
ghost use Rattle.wsm_lines.specs.declared.source.Source.{Source};
ghost use Rattle.wsm_values.specs.declared.zone.Zone.{Zone};
ghost use Rattle.wsm_description.specs.declared.description.Description.{Description};
ghost use Rattle.wsm_source.specs.Binding.{bound};
ghost use Rattle.wsm_semantics.specs.Query.{Query};
ghost use Rattle.wsm_log_rows.specs.Rows.{Said};
ghost use Rattle.wsm_turns.specs.declared.clocks.Clocks.{Clocks};
ghost use Rattle.wsm_turn_laws.specs.Delivered.{CountOnce, EndsDeliveries, FeedsDeliveries, Suits};
ghost use Rattle.wsm_log_text.specs.LogText.{Said as SaidWith, said as said_with};
ghost use Rattle.wsm_row_laws.specs.Delivered.{AreSent, PassesDeliveries};
ghost use Rattle.wsm_row_laws.specs.SameRuns.{AreWithout, EndsAlike, WritesAlike};
ghost use Rattle.wsm_row_laws.specs.SaidRows.{AreReadBack, AreSayable, said};
ghost use Rattle.wsm_turns.specs.Turns.{Setting};
ghost use Rattle.wsm_row_laws.specs.Fed.{AreFed, AreLines};

use wsm_doubles::laws::passes_by_number;
use wsm_lines::LineFault;
use wsm_turn_laws::laws::feeds_deliveries;

/// A run over the rows that are written for the lines of a log reads the events that the source means of these lines, in their
/// order, and a row of no event for each line that says none. What lines say must be of the keys and the types that are
/// declared: so it is by a source that was bound to them ([`bound_sources_say_rows`]).
pub fn rows_are_read()
    ensures { (s : Source) (d : Declared) (lines : List (List ℕ)) → IsTrue (is_schema d) → AreSayable d (said s d (reverse lines)) →
        (rows : List (List (List ℕ))) × AreReadBack s d lines rows }
{}

/// And it writes what a run over the log writes without clocks and identifiers, turn by turn, but for the word of a line that says no
/// event, and at the end the same.
pub fn runs_alike()
    ensures turns { (q : Query) (before : List Said) (x : Said) → length before + 1 < 2 ^ 64 → WritesAlike q before x }
    ensures end { (q : Query) (lines : List Said) → unsigned_abs q.clock.records < 2 ^ 64 → length lines < 2 ^ 64 → EndsAlike q lines }
    ensures without { (s : Source) (d : Declared) (lines : List (List ℕ)) → s.identifier ≡ None → AreWithout s d lines }
{}

/// What lines say by a source that was bound to a query is of the keys and the types that the query declares, whatever the
/// description, the zone, the file of names and the lines are.
pub fn bound_sources_say_rows()
    ensures { (x : Description) (d : Declared) (zone : Zone) (file : List ℕ) → IsTrue (is_schema d) →
        IfOk (bound x d zone file) (λ s. (lines : List (List ℕ)) → AreSayable d (said s d lines)) }
{}

/// Where each line says a record that the query could take, with an identifier, or none, a run over the log without clocks feeds the
/// query what passes of these deliveries, and remembers what is remembered of them. So the law `passes_once` of `wsm_semantics` speaks
/// of it.
pub fn passes_deliveries()
    ensures { (q : Query) (lines : List SaidWith) → AreSent q.declared lines → PassesDeliveries q lines }
{
    passes_by_number();
}

/// With clocks a run over the lines of a log feeds the query what passes of the records that the lines deliver, as each goes on
/// (`feeds_deliveries` of `wsm_turn_laws`): a source's lines tell no watermark. So no record counts twice, whatever
/// the clocks do, where no double has a later time than the first of its identifier.
pub fn counts_deliveries()
    ensures so_far { (s : Source) (q : Query) (c : Clocks) (lines : List (List ℕ)) → Suits c q → FeedsDeliveries q c (said_with s (Some c) q.declared lines) }
    ensures at_end { (s : Source) (q : Query) (c : Clocks) (lines : List (List ℕ)) → Suits c q → EndsDeliveries q c (said_with s (Some c) q.declared lines) }
    ensures once { (s : Source) (q : Query) (c : Clocks) (lines : List (List ℕ)) → Suits c q → CountOnce q c (said_with s (Some c) q.declared lines) }
{
    feeds_deliveries::<LineFault>();
}

/// What is written for lines of rows, with watermarks among them, is read by a run over rows as the events of the lines' turns, in
/// their order, with a row of no event for each line that is none, unless it has no byte. So a run behind `wsm watermarks` is fed
/// what the definition of its turns says (`wsm_row_watermarks`).
pub fn rows_are_fed()
    ensures { (w : Setting) (once : Option ℕ) (last : Bool) (lines : List (List ℕ)) → IsTrue (is_schema w.declared) → AreLines lines →
        (rows : List (List (List ℕ))) × AreFed w once last lines rows }
{}
