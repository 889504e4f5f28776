//! What holds of a run that goes on from what another has come to.

ghost use Rattle.std.specs.Prelude.{◌≡◌, ◌≤◌, ◌<◌, ℕ, ℤ, List, ◌++◌, length, Option, unsigned_abs, IsTrue};
ghost use Rattle.wsm_record.specs.Event.{Event};
ghost use Rattle.wsm_semantics.specs.ByKey.{with_records};
ghost use Rattle.wsm_semantics.specs.Needed.{needed};
ghost use Rattle.wsm_program.specs.Program.{Program, is_program};
ghost use Rattle.wsm_machine.specs.Meaning.{plan_of, query_of};
ghost use Rattle.wsm_turns.specs.declared.clocks.Clocks.{Clocks};
ghost use Rattle.wsm_turns.specs.Turns.{Kept, Said, kept, setting_of};
ghost use Rattle.wsm_head.specs.StandsFor.{Follows, StandsFor, program_with, records_left, taken};
ghost use Rattle.wsm_head.specs.Behind.{KeptFor, TurnsAlike, lines_behind, lines_written, needed_of};

/// The needed events of a history stand for it while not all RECORDS are used up, by a program with as many left.
pub fn needed_stand()
    ensures stand { (p : Program) → IsTrue (is_program p) → (past : List Event) → let q = query_of p in taken q past < unsigned_abs q.clock.records →
        StandsFor (plan_of p) q (records_left q past) past (needed q past) }
    ensures by_program { (p : Program) (records : ℤ) → query_of (program_with records p) ≡ with_records records (query_of p) }
{}

/// What stands for a history has needed events of its own, which stand for that history too, while not all of its RECORDS are used
/// up. By the RECORDS of the whole as many of them are taken.
pub fn needed_again()
    ensures stand { (p : Program) → IsTrue (is_program p) → (records : ℤ) → IsTrue (is_program (program_with records p)) → (past other : List Event) →
        StandsFor (plan_of p) (query_of p) records past other →
        let q = query_of (program_with records p) in taken q other < unsigned_abs records → StandsFor (plan_of p) (query_of p) (records_left q other) past (needed q other) }
    ensures taken { (p : Program) (records : ℤ) (other : List Event) → let q = query_of (program_with records p) in
        taken q other < unsigned_abs records → unsigned_abs records ≤ unsigned_abs p.header.clock.records → taken (query_of p) (needed q other) ≡ taken q (needed q other) }
{}

/// Whatever event comes next, it has the same verdict after a history and after one that stands for it, writes the same rows, and
/// behind it the one stands for the other. Where all RECORDS are used up, they are by both. What stands for one that stands for a
/// third stands for that, so a run may go on from what one has come to that went on itself.
pub fn follows()
    ensures next { (p : Program) → IsTrue (is_program p) → (records : ℤ) (past other : List Event) → StandsFor (plan_of p) (query_of p) records past other →
        (e : Event) → Follows (plan_of p) (query_of p) records past other e }
    ensures through { (p : Program) (records fewer : ℤ) (past mid other : List Event) → StandsFor (plan_of p) (query_of p) records past mid →
        StandsFor (plan_of (program_with records p)) (query_of (program_with records p)) fewer mid other → StandsFor (plan_of p) (query_of p) fewer past other }
{}

/// Where a history stands for the events that the query was fed of some lines, and all else that is kept of them is as it was, at
/// each line that comes behind the same goes on, with the same numbers of lines, and the same waits, is told and is remembered.
pub fn turns<F>()
    ensures { (p : Program) → IsTrue (is_program p) → (records : ℤ) (clocks : Option Clocks) (k other : Kept) (number : ℕ) (x : Said F) →
        KeptFor (plan_of p) (query_of p) records k other → TurnsAlike (plan_of p) (query_of p) records clocks k other number x }
{}

/// So a run that goes on from that writes for the lines that come behind the lines that the run over all writes for them. Needed
/// events may be in the place of those that the query was fed while not all RECORDS are used up.
pub fn writes_on<F>()
    ensures on { (p : Program) → IsTrue (is_program p) → (records : ℤ) (clocks : Option Clocks) (before lines : List (Said F)) (other : Kept) →
        let q = query_of p in
        KeptFor (plan_of p) q records (kept (setting_of clocks q) before) other →
        lines_written q clocks (lines ++ before) ≡ lines_written q clocks before ++ lines_behind (query_of (program_with records p)) clocks other (length before) lines }
    ensures needed { (p : Program) → IsTrue (is_program p) → (clocks : Option Clocks) (before lines : List (Said F)) →
        let q = query_of p in let k = kept (setting_of clocks q) before in
        taken q k.fed < unsigned_abs q.clock.records →
        lines_written q clocks (lines ++ before) ≡ lines_written q clocks before ++ lines_behind (query_of (program_with (records_left q k.fed) p)) clocks (needed_of q k) (length before) lines }
{}
