//! An engine, and what it has told.

ghost use Rattle.std.specs.Prelude.{◌≡◌, [], IfOk};
ghost use Rattle.wsm_engine.specs.Meaning.{Fits};

use crate::staying::Staying;
use std::alloc::{AllocError, Global};
use wsm_admission::Refusal;
use wsm_csv::{refusal_text, rows_text};
use wsm_engine::{Engine, Reply};
use wsm_record::{Event, Schema};
use wsm_rules::Verified;
use wsm_turns::Taker;

/// An engine, and the bytes of the lines that are written.
pub struct Told {
    pub engine: Engine,
    pub lines: Vec<u8>,
    // What stays of the events, where that is kept.
    pub staying: Option<Staying>,
}

impl Drop for Told {
    fn drop(self) {
        let Told {
            engine,
            lines: _,
            staying: _,
        } = self;
        // One call, where `_` lets each part of it go.
        drop(engine);
    }
}

impl Told {
    ghost use Rattle.std.specs.Prelude.{◌≡◌, ◌++◌, ◌∷◌, [], true, List, IfOk, IfSome, OnOk, is_some, length, take};
    ghost use Rattle.wsm_record.specs.Event.{Event as AnyEvent, event_of};
    ghost use Rattle.wsm_record.specs.Schema.{Declared};
    ghost use Rattle.wsm_program.specs.Program.{Program};
    ghost use Rattle.wsm_machine.specs.Meaning.{query_of};
    ghost use Rattle.wsm_semantics.specs.Query.{mark};
    ghost use Rattle.wsm_semantics.specs.Lines.{refusal_lines};
    ghost use Rattle.wsm_semantics.specs.Text.{lines_text};
    ghost use Rattle.wsm_intake.specs.Staying.{Cuts, Fed};
    ghost use Rattle.wsm_log_text.specs.Needed.{IsListed};
    ghost use Rattle.wsm_intake.specs.Tells.{Serves};

    /// Before the first event.
    pub fn open(alloc: Global, verified: Verified) -> Result<Told, AllocError>
        ensures { IfOk result (λ told. Serves verified told []) }
    {
        Ok(Told {
            engine: opened(alloc, verified)?,
            lines: Vec::new(alloc),
            staying: None,
        })
    }

    /// The same, and what stays of the events is kept.
    pub fn open_kept(alloc: Global, verified: Verified) -> Result<Told, AllocError>
        ensures serves { IfOk result (λ told. Serves verified told []) }
        ensures keeps { IfOk result (λ told. is_some told.staying ≡ true) }
    {
        let mut told = Told::open(alloc, verified)?;
        told.keep(alloc);
        Ok(told)
    }

    /// Keeps what stays of the events from now on, where none came yet.
    pub fn keep(&mut self, alloc: Global)
        ensures serves { (p : Program) → Serves p self.old [] → Serves p self.new [] }
        ensures keeps { is_some self.new.staying ≡ true }
        ensures others { self.new ≡ record self.old { staying = self.new.staying } }
    {
        self.staying = Some(Staying::open(alloc, &self.engine));
    }

    /// The engine alone.
    pub fn into_engine(self) -> Engine
        ensures { result ≡ self.engine }
    {
        let Told {
            engine,
            lines: _,
            staying: _,
        } = self;
        engine
    }

    /// The watermark.
    pub fn mark(&self) -> i64
        ensures { (p : Program) (past : List AnyEvent) → Serves p self.now past → result ≡ mark (query_of p) past }
    {
        self.engine.mark()
    }

    /// What the program declares of its records.
    pub fn schema(&self) -> &Schema
        ensures { result.now ≡ self.now.engine.program.header.schema }
    {
        self.engine.schema()
    }

    /// Adds the list of the events that are needed, the oldest first, behind a text, where what stays is kept, and answers whether it
    /// is.
    ///
    /// # Errors
    ///
    /// Memory was refused. A part may have been added, and no event may be taken any more.
    pub fn save_needed(&mut self, text: &mut Vec<u8>) -> Result<bool, AllocError>
        ensures serves { (p : Program) (past : List AnyEvent) → Serves p self.old past → OnOk result (Serves p self.new past) }
        ensures saved { (p : Program) (past : List AnyEvent) → Serves p self.old past →
            IfOk result (λ is_saved. is_saved ≡ true → IsListed (query_of p) past text.old.items text.new.items) }
        ensures grows { OnOk result (take (length text.old.items) text.new.items ≡ text.old.items) }
        ensures is_saved { IfOk result (λ is_saved. is_saved ≡ is_some self.old.staying) }
        ensures keeps { is_some self.new.staying ≡ is_some self.old.staying }
        ensures others { self.new ≡ record self.old { staying = self.new.staying } }
    {
        match &mut self.staying {
            Some(staying) => {
                staying.add_list(text)?;
                Ok(true)
            }
            None => Ok(false),
        }
    }

    // Has the engine take an event.
    fn feed(&mut self, event: &Event) -> Result<Reply, AllocError>
        ensures fed { (p : Program) (past : List AnyEvent) → Serves p self.old past → IfOk result (Fed p self.new.engine past (event_of event.now)) }
        ensures staying { (p : Program) (past : List AnyEvent) → Serves p self.old past →
            OnOk result (IfSome self.new.staying (λ c. Cuts p c (event_of event.now ∷ past))) }
        ensures keeps { is_some self.new.staying ≡ is_some self.old.staying }
        ensures lines { self.new.lines.items ≡ self.old.lines.items }
    {
        match &mut self.staying {
            Some(staying) => staying.feed(&mut self.engine, event),
            None => Ok(self.engine.feed(event)),
        }
    }

    // Adds the line of a refusal, if there is one.
    fn tell(&mut self, number: u64, refusal: Option<Refusal>) -> Result<(), AllocError>
        ensures lines { (declared : Declared) →
            OnOk result (self.new.lines.items ≡ self.old.lines.items ++ lines_text declared (refusal_lines number refusal)) }
        ensures others { self.new ≡ record self.old { lines = self.new.lines } }
    {
        refusal_text(number, refusal, &mut self.lines)
    }
}

impl Taker for Told {
    ghost use Rattle.wsm_intake.specs.Tells.{Took, Took-join, Took-none};

    ghost took = { Took };

    ghost none = { Took-none };

    ghost join = { Took-join };

    // Takes the turn of an event, and adds its bytes.
    fn take(&mut self, number: u64, event: &Event) -> Result<(), AllocError> {
        let reply = self.feed(event)?;
        self.tell(number, reply.refusal)?;
        rows_text(self.engine.schema(), self.engine.rows(), &mut self.lines)?;
        Ok(())
    }
}

/// An engine of a program, before its first event.
///
/// # Errors
///
/// Memory was refused.
pub fn opened(alloc: Global, verified: Verified) -> Result<Engine, AllocError>
    ensures program { IfOk result (λ engine. engine.program ≡ verified) }
    ensures fits { IfOk result (λ engine. Fits engine []) }
{
    match Engine::open(alloc, verified) {
        Ok(engine) => Ok(engine),
        Err(_) => Err(AllocError),
    }
}
