//! What is handed out for the lines of a log.

ghost use Rattle.std.specs.Prelude.{◌≡◌, ◌<◌, ◌∷◌, List, ℕ, drop, length, OnOk};
ghost use Rattle.wsm_live.specs.Told.{Turn};

use crate::cut_row::{add_front, cut_of};
use crate::rows::{behind_line, in_front, kept_part, line_end, line_of};
use std::alloc::{AllocError, Global};
use wsm_journal::Record;
use wsm_numbered::Numbering;

/// Who takes lines of a log, one behind the other. What is written for one hangs on the lines before it and on itself.
///
/// What the lines so far come to can be kept as a text, by which another one that took no line goes on as if it had taken them.
pub trait LineTaker: Drop {
    ghost use Rattle.std.specs.Prelude.{◌≡◌, ◌∷◌, [], Bool, List, ℕ, drop, length, take, true, IfOk, IfSome, OnOk};
    ghost use Rattle.wsm_live.specs.Told.{Turn};

    /// By what lines are taken. Two of which the same is written for all lines may go on by texts of their own.
    ghost By: { Type 0 };

    /// The bytes that are written for each line.
    ghost turn: { By → Turn };

    /// It takes lines by that, and took these, the newest first.
    ghost stands: { Self → By → List (List ℕ) → Type 0 };

    /// The bytes that are written for the last line.
    ghost written: { Self → List ℕ };

    /// This text says what these lines, the newest first, come to where lines are taken by that.
    ghost states: { List ℕ → By → List (List ℕ) → Type 0 };

    /// Whether it can say so of these lines, the newest first, which it took by that.
    ghost can_say: { Self → By → List (List ℕ) → Bool };

    /// Takes a line.
    ///
    /// # Errors
    ///
    /// Memory was refused.
    fn take(&mut self, line: &[u8]) -> Result<(), AllocError>
        ensures stands { (by : By) (before : List (List ℕ)) → stands self.old by before → OnOk result (stands self.new by (line.now ∷ before)) }
        ensures written { (by : By) (before : List (List ℕ)) → stands self.old by before → OnOk result (written self.new ≡ turn by before line.now) };

    /// The bytes that are written for the last line.
    fn written(&self) -> &[u8]
        ensures { result.now ≡ written self.now };

    /// Adds a text that says what the lines so far come to; answers false where it can't be said now, and what was added is no such
    /// text then. No line is taken by that.
    ///
    /// # Errors
    ///
    /// Memory was refused.
    fn save(&mut self, text: &mut Vec<u8>) -> Result<bool, AllocError>
        ensures stands { (by : By) (before : List (List ℕ)) → stands self.old by before → OnOk result (stands self.new by before) }
        ensures states { (by : By) (before : List (List ℕ)) → stands self.old by before →
            IfOk result (λ is_said. is_said ≡ true → states (drop (length text.old.items) text.new.items) by before) }
        ensures said { (by : By) (before : List (List ℕ)) → stands self.old by before → IfOk result (λ is_said. is_said ≡ can_say self.old by before) }
        ensures grows { OnOk result (take (length text.old.items) text.new.items ≡ text.old.items) };

    /// Goes on from such a text, where no line was taken: what it says counts as taken. None where it can't be read.
    ///
    /// # Errors
    ///
    /// Memory was refused.
    fn resume(self, text: &[u8]) -> Result<Option<Self>, AllocError>
        ensures { (by : By) (before : List (List ℕ)) → stands self by [] → states text.now by before → IfOk result (λ o. IfSome o (λ t. stands t by before)) };
}

// All records but the first.
pub(crate) fn rest_of<'s, 't>(records: &'s [Record<'t>]) -> &'s [Record<'t>]
    requires { 0 < length records.now }
    ensures { result.now ≡ drop 1 records.now }
{
    &records[1..]
}

/// A run over lines that come in pieces: who takes them, and the numbers of the lines that were written.
#[derive(Drop)]
pub struct LiveRun<T: LineTaker> {
    taker: T,
    numbering: Numbering,
    // Of a line as many bytes are wanted.
    longest: usize,
    // What was written last, with its numbers.
    told: Vec<u8>,
}

impl<T: LineTaker> LiveRun<T> {
    ghost use Rattle.std.specs.Prelude.{◌≡◌, ◌++◌, ◌∷◌, [], List, ℕ, IfOk, IfSome, OnErr, OnOk, length, map, take, true};
    ghost use Rattle.wsm_journal.specs.Seen.{entry_seen};
    ghost use Rattle.wsm_live.specs.Kept.{read_lines};
    ghost use Rattle.wsm_numbered.specs.Numbered.{sum_over};
    ghost use Rattle.wsm_live.specs.Told.{told};
    ghost use Rattle.wsm_live.specs.Head.{StandsFor, is_readable};
    ghost use Rattle.wsm_live.specs.Live.{AddsCut, IsBehind, IsStill, Took, chunk_lines, longest_of, taker_of};

    /// Before the first line. Of a line at most `longest` bytes are wanted; two more are taken of one that is longer.
    pub fn new(alloc: Global, taker: T, longest: usize) -> LiveRun<T>
        ensures behind { (by : T.By) → T.stands taker by [] → IsBehind T.turn T.stands result by [] }
        ensures longest { longest_of result ≡ longest }
    {
        LiveRun {
            taker,
            numbering: Numbering::new(),
            longest,
            told: Vec::new(alloc),
        }
    }

    /// Who takes the lines.
    pub fn taker(&self) -> &T
        ensures { result.now ≡ taker_of self.now }
    {
        &self.taker
    }

    /// How many lines were handed out.
    pub fn count(&self) -> u64
        ensures { (by : T.By) (before : List (List ℕ)) → IsBehind T.turn T.stands self.now by before → result ≡ length (told (T.turn by) before) }
    {
        self.numbering.count()
    }

    /// Their sum.
    pub fn sum(&self) -> u32
        ensures { (by : T.By) (before : List (List ℕ)) → IsBehind T.turn T.stands self.now by before → result ≡ sum_over 0 (told (T.turn by) before) }
    {
        self.numbering.sum()
    }

    /// Adds a row that stands for the lines so far, behind which a run can go on that took no line; answers false where the taker
    /// can't say now what they came to, and what was added is no such row then. No line is taken by that.
    ///
    /// # Errors
    ///
    /// Memory was refused.
    pub fn save(&mut self, rows: &mut Vec<u8>) -> Result<bool, AllocError>
        ensures still { OnOk result (IsStill T.turn T.stands self.old self.new) }
        ensures row { IfOk result (λ is_said. is_said ≡ true → AddsCut T.turn T.stands T.states self.old rows.old.items rows.new.items) }
        ensures said { (by : T.By) (before : List (List ℕ)) → IsBehind T.turn T.stands self.old by before →
            IfOk result (λ is_said. is_said ≡ T.can_say (taker_of self.old) by before) }
        ensures longest { longest_of self.new ≡ longest_of self.old }
    {
        add_front(self.numbering.count(), self.numbering.sum(), rows)?;
        let is_said = self.taker.save(rows)?;
        rows.push(b'\n')?;
        Ok(is_said)
    }

    /// Goes on from what stands behind a head's row, where no line was taken: the lines that it stands for count as taken. None where
    /// it can't be read.
    ///
    /// # Errors
    ///
    /// Memory was refused.
    pub fn resume(self, row: &[u8]) -> Result<Option<LiveRun<T>>, AllocError>
        ensures behind { (by : T.By) (before : List (List ℕ)) → IsBehind T.turn T.stands self by [] → StandsFor T.turn T.states by before row.now →
            IfOk result (λ o. IfSome o (λ run. IsBehind T.turn T.stands run by before)) }
        ensures readable { IfOk result (λ o. IfSome o (λ _. is_readable row.now ≡ true)) }
        ensures longest { IfOk result (λ o. IfSome o (λ run. longest_of run ≡ longest_of self)) }
    {
        if row.is_empty() {
            return Ok(Some(self));
        }
        let Some(cut) = cut_of(row) else {
            return Ok(None);
        };
        match self.taker.resume(cut.text)? {
            Some(taker) => Ok(Some(LiveRun {
                taker,
                numbering: Numbering::behind(cut.count, cut.sum),
                longest: self.longest,
                told: self.told,
            })),
            None => Ok(None),
        }
    }

    /// Takes the lines of rows, and adds what is handed out for them.
    ///
    /// # Errors
    ///
    /// Memory was refused, or 2^64 - 1 lines were written. Nothing was added then.
    pub fn take(&mut self, rows: &[u8], out: &mut Vec<u8>) -> Result<(), AllocError>
        ensures takes { OnOk result (Took T.turn T.stands (read_lines (longest_of self.old) rows.now) self.old self.new out.old.items out.new.items) }
        ensures longest { longest_of self.new ≡ longest_of self.old }
        ensures kept { OnErr result (out.new.items ≡ out.old.items) }
        ensures grows { take (length out.old.items) out.new.items ≡ out.old.items }
    {
        self.told.clear();
        self.take_rows(rows)?;
        out.extend_from_slice(&self.told)?;
        Ok(())
    }

    /// Takes the lines of records, one behind the other, and adds what is handed out for them.
    ///
    /// # Errors
    ///
    /// Memory was refused, or 2^64 - 1 lines were written. Nothing was added then.
    pub fn take_all(&mut self, chunks: &[Record<'_>], out: &mut Vec<u8>) -> Result<(), AllocError>
        ensures takes { OnOk result (Took T.turn T.stands
            (chunk_lines (longest_of self.old) (map entry_seen chunks.now)) self.old self.new out.old.items out.new.items) }
        ensures longest { longest_of self.new ≡ longest_of self.old }
        ensures kept { OnErr result (out.new.items ≡ out.old.items) }
    {
        let start = out.len();
        match self.take_each(chunks, out) {
            Ok(()) => Ok(()),
            Err(error) => {
                out.truncate(start);
                Err(error)
            }
        }
    }

    // The same, where a part may have been added.
    fn take_each(&mut self, chunks: &[Record<'_>], out: &mut Vec<u8>) -> Result<(), AllocError>
        ensures takes { OnOk result (Took T.turn T.stands
            (chunk_lines (longest_of self.old) (map entry_seen chunks.now)) self.old self.new out.old.items out.new.items) }
        ensures longest { longest_of self.new ≡ longest_of self.old }
        ensures grows { take (length out.old.items) out.new.items ≡ out.old.items }
    {
        let mut left = chunks;
        while let Some(chunk) = left.first() {
            self.take(chunk.rows, out)?;
            left = rest_of(left);
        }
        Ok(())
    }

    // Takes the lines of rows.
    fn take_rows(&mut self, rows: &[u8]) -> Result<(), AllocError>
        ensures takes { OnOk result (Took T.turn T.stands
            (read_lines (longest_of self.old) rows.now) self.old self.new self.old.told.items self.new.told.items) }
        ensures longest { longest_of self.new ≡ longest_of self.old }
    {
        let mut rest = rows;
        while let Some(end) = line_end(rest) {
            self.take_line(kept_part(line_of(in_front(rest, end)), self.longest))?;
            rest = behind_line(rest, end);
        }
        Ok(())
    }

    // Takes a line.
    fn take_line(&mut self, line: &[u8]) -> Result<(), AllocError>
        ensures takes { OnOk result (Took T.turn T.stands (line.now ∷ []) self.old self.new self.old.told.items self.new.told.items) }
        ensures longest { longest_of self.new ≡ longest_of self.old }
    {
        self.taker.take(line)?;
        self.numbering.add(self.taker.written(), &mut self.told)?;
        Ok(())
    }
}
