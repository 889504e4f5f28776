//! The events that stay of those that parts take.

ghost use Rattle.std.specs.Prelude.{◌≡◌, ◌∷◌, List, ℕ, IfSome, OnOk, [], length, take};
ghost use Rattle.wsm_record.specs.Event.{Event as AnyEvent, event_of};
ghost use Rattle.wsm_semantics.specs.Query.{Query};
ghost use Rattle.wsm_program.specs.Program.{Program};
ghost use Rattle.wsm_part_programs.specs.Names.{of_names};
ghost use Rattle.wsm_part_engines.specs.Fits.{AreNamed, Fits};
ghost use Rattle.wsm_keep.specs.Holds.{rows_with};
ghost use Rattle.wsm_keep.specs.Keeper.{IsTold};
ghost use Rattle.wsm_saved.specs.Events.{event_text};
ghost use Rattle.wsm_log_text.specs.Needed.{IsListed};
ghost use Rattle.wsm_keyed_told.specs.Staying.{Cuts, CutsAll, IsAnswered};

use std::alloc::{AllocError, Global};
use std::marker::Model;
use wsm_cut::judge_told;
use wsm_keep::{Judged, Keeper};
use wsm_part_engines::{Parts, PartsReply};
use wsm_record::Event;
use wsm_saved::{Saved, save_number};

/// What stays of the events of a query over any names, each with its saved text. A clause sees what keeps them alone.
#[derive(Drop)]
pub struct KeyedStaying {
    keeper: Keeper,
    // The text of the event that was taken last.
    text: Vec<u8>,
}

impl Model for KeyedStaying {
    ghost use Rattle.wsm_keep.specs.declared.keeper.Keeper.{Keeper as KeeperValue};
    ghost use Rattle.wsm_keyed_told.specs.Staying.{IsReady};

    ghost Value = { KeeperValue };

    ghost view = { λ s. s.keeper };

    ghost invariant = { λ s. IsReady s.keeper };
}

impl KeyedStaying {
    /// Before the first event of parts.
    pub fn open(alloc: Global, parts: &Parts) -> KeyedStaying
        ensures { (p : Program) (all : List (List ℕ)) → Fits p all parts.now [] → Cuts (of_names p all) result [] }
    {
        let header = parts.header();
        let lateness = header.clock.lateness;
        KeyedStaying {
            keeper: Keeper::open(alloc, header.shape, lateness, header.form, parts.mark()),
            text: Vec::new(alloc),
        }
    }

    /// Takes the next event, of which this is told. Also one that can't stay is saved: so it is known of each that it comes back.
    pub fn take(&mut self, event: &Event, judged: Judged) -> Result<(), AllocError>
        ensures { (q : Query) (past : List AnyEvent) → Cuts q self.old past → IsTold q (rows_with event_text past) (event_of event.now) judged →
            OnOk result (Cuts q self.new (event_of event.now ∷ past)) }
    {
        self.text.clear();
        event.save(&mut self.text)?;
        self.keeper.take(judged, &self.text)
    }

    /// Adds the list of the events that stay, the oldest first, behind a text. The others go.
    pub fn add_list(&mut self, out: &mut Vec<u8>) -> Result<(), AllocError>
        ensures cuts { (q : Query) (past : List AnyEvent) → Cuts q self.old past → OnOk result (Cuts q self.new past) }
        ensures listed { (q : Query) (past : List AnyEvent) → Cuts q self.old past → OnOk result (IsListed q past out.old.items out.new.items) }
        ensures grows { OnOk result (take (length out.old.items) out.new.items ≡ out.old.items) }
    {
        let mut texts = Vec::new(*self.text.allocator());
        let count = self.keeper.add_staying(&mut texts)?;
        save_number(count as u64, out)?;
        out.extend_from_slice(&texts)
    }
}

/// Takes note of the next event where what stays is kept, by what parts replied to it, the watermark before and that behind it.
///
/// # Errors
///
/// Memory was refused, and nothing more may be kept.
pub fn note(
    staying: &mut Option<KeyedStaying>,
    event: &Event,
    reply: &PartsReply,
    before: i64,
    mark: i64,
) -> Result<(), AllocError>
    ensures { (p : Program) (past : List AnyEvent) → IfSome staying.old (λ c. CutsAll p c past) →
        ((all : List (List ℕ)) → AreNamed all (event_of event.now ∷ past) → IsAnswered (of_names p all) past (event_of event.now) reply.now before mark) →
        OnOk result (IfSome staying.new (λ c. CutsAll p c (event_of event.now ∷ past))) }
{
    match staying {
        Some(staying) => {
            let is_taken = reply.refusal.is_none();
            let judged = judge_told(event, is_taken, reply.selected, before, mark);
            staying.take(event, judged)
        }
        None => Ok(()),
    }
}
