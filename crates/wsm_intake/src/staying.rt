//! The events that stay of those that an engine takes.

ghost use Rattle.std.specs.Prelude.{◌≡◌, ◌∷◌, [], List, IfOk, OnOk, length, take};
ghost use Rattle.wsm_record.specs.Event.{Event as AnyEvent, event_of};
ghost use Rattle.wsm_program.specs.Program.{Program};
ghost use Rattle.wsm_machine.specs.Meaning.{query_of};
ghost use Rattle.wsm_engine.specs.Meaning.{Fits as EngineFits};
ghost use Rattle.wsm_keep.specs.Holds.{rows_with};
ghost use Rattle.wsm_keep.specs.Keeper.{IsTold};
ghost use Rattle.wsm_saved.specs.Events.{event_text};
ghost use Rattle.wsm_intake.specs.Staying.{Cuts, Fed};
ghost use Rattle.wsm_log_text.specs.Needed.{IsListed};

use std::alloc::{AllocError, Global};
use std::marker::Model;
use wsm_cut::{Cutter, judge_event};
use wsm_engine::{Engine, Reply};
use wsm_keep::Judged;
use wsm_record::Event;
use wsm_saved::{Saved, save_number};

/// A cutter of events, each with its saved text. A clause sees the cutter alone.
#[derive(Drop)]
pub struct Staying {
    cutter: Cutter,
    // The text of the event that was taken last.
    text: Vec<u8>,
}

impl Model for Staying {
    ghost use Rattle.wsm_cut.specs.declared.cutter.Cutter.{Cutter as CutterValue};
    ghost use Rattle.wsm_cut.specs.Cutter.{IsReady};

    ghost Value = { CutterValue };

    ghost view = { λ s. s.cutter };

    ghost invariant = { λ s. IsReady s.cutter };
}

impl Staying {
    /// Before the first event of an engine.
    pub fn open(alloc: Global, engine: &Engine) -> Staying
        ensures { EngineFits engine.now [] → Cuts engine.now.program result [] }
    {
        Staying {
            cutter: Cutter::open(alloc, engine.program(), engine.mark()),
            text: Vec::new(alloc),
        }
    }

    /// Has the engine take the next event.
    pub fn feed(&mut self, engine: &mut Engine, event: &Event) -> Result<Reply, AllocError>
        ensures fed { (p : Program) (past : List AnyEvent) → engine.old.program ≡ p → EngineFits engine.old past →
            IfOk result (Fed p engine.new past (event_of event.now)) }
        ensures cuts { (p : Program) (past : List AnyEvent) → engine.old.program ≡ p → EngineFits engine.old past → Cuts p self.old past →
            OnOk result (Cuts p self.new (event_of event.now ∷ past)) }
    {
        let before = engine.mark();
        let reply = engine.feed(event);
        self.take(event, judge_event(event, &reply, before, engine.mark()))?;
        Ok(reply)
    }

    // Takes the next event, of which this is told. Also one that can't stay is saved: so it is known of each that it comes back.
    fn take(&mut self, event: &Event, judged: Judged) -> Result<(), AllocError>
        ensures { (p : Program) (past : List AnyEvent) → Cuts p self.old past → IsTold (query_of p) (rows_with event_text past) (event_of event.now) judged →
            OnOk result (Cuts p self.new (event_of event.now ∷ past)) }
    {
        self.text.clear();
        event.save(&mut self.text)?;
        self.cutter.take(judged, &self.text)
    }

    /// Adds the list of the events that stay, the oldest first, behind a text. The others go.
    pub fn add_list(&mut self, out: &mut Vec<u8>) -> Result<(), AllocError>
        ensures cuts { (p : Program) (past : List AnyEvent) → Cuts p self.old past → OnOk result (Cuts p self.new past) }
        ensures listed { (p : Program) (past : List AnyEvent) → Cuts p self.old past → OnOk result (IsListed (query_of p) past out.old.items out.new.items) }
        ensures grows { OnOk result (take (length out.old.items) out.new.items ≡ out.old.items) }
    {
        let mut texts = Vec::new(*self.text.allocator());
        let count = self.cutter.add_staying(&mut texts)?;
        save_number(count as u64, out)?;
        out.extend_from_slice(&texts)
    }
}
