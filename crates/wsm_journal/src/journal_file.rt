//! A journal's file in its folder: records are added to it, and others are put in their place.

ghost use Rattle.std.specs.Prelude.{◌≡◌, ◌-◌, ◌<◌, ◌^◌, ◌++◌, [], ◌∷◌, Some, None, true, false, length, map, option_map, IfErr, IfOk, IsErrOf, IsTrue, OnOk};
ghost use Rattle.wsm_journal.specs.declared.journal_file.JournalError.TheVariants.{Damaged, Failed, Full, Memory};
ghost use Rattle.wsm_journal.specs.declared.reading.Behind.TheVariants.{Damage};
ghost use Rattle.wsm_journal.specs.Text.{AreRecords, are_rows, entry_sum, is_position, journal_text, last_number, record_text};
ghost use Rattle.wsm_journal.specs.Reading.{read_journal};
ghost use Rattle.wsm_journal.specs.Seen.{entry_seen};
ghost use Rattle.wsm_journal.specs.Folder.{Append, Rename, Sync, SyncFolder, bytes_of, file_with, settled};
ghost use Rattle.wsm_journal.specs.Calls.{HasCause, HasSameNames, IfKnown, LeavesSince, MayLeave, MayLeaveIn, called};
ghost use Rattle.wsm_journal.specs.Kept.{HasOneMore, IsCaused, IsLeftOr, IsLeftOrRead, IsSettledAt, MayLeaveSynced, cause_of, entry_behind, error_of, is_kept, next_number, records_in, with_next};

use crate::folder::{FolderError, JournalFolder};
use crate::reading::{Behind, read_journal};
use crate::records::Record;
use crate::writing::append_record;
use std::alloc::{AllocError, Global};

/// Why a journal wasn't opened, or a record not added.
#[derive(Clone, Copy, Debug, PartialEq, Eq)]
pub enum JournalError {
    /// There was no memory.
    Memory,
    /// A call of the folder failed.
    Failed,
    /// No number is behind that of the last record.
    Full,
    /// A record isn't whole behind which another is.
    Damaged,
}

impl From<AllocError> for JournalError {
    ghost from_gives = { λ _ e. e ≡ Memory };

    fn from(_: AllocError) -> Self {
        JournalError::Memory
    }
}

impl From<FolderError> for JournalError {
    ghost from_gives = { λ error e. e ≡ error_of error };

    fn from(error: FolderError) -> Self {
        match error {
            FolderError::Memory => JournalError::Memory,
            FolderError::Failed => JournalError::Failed,
        }
    }
}

/// Why other records weren't put in the place of a journal's.
#[derive(Clone, Copy, Debug, PartialEq, Eq)]
pub enum ReplaceError {
    /// The journal is as it was, and goes on.
    Kept(FolderError),
    /// It may be the one or the other, and has to be opened again.
    Either(FolderError),
}

impl From<ReplaceError> for JournalError {
    ghost from_gives = { λ error e. e ≡ error_of (cause_of error) };

    fn from(error: ReplaceError) -> Self {
        match error {
            ReplaceError::Kept(error) => JournalError::from(error),
            ReplaceError::Either(error) => JournalError::from(error),
        }
    }
}

/// A journal's file in its folder. Each record of it is on the disk, by its name.
#[derive(Drop)]
pub struct JournalFile<F: JournalFolder> {
    folder: F,
    // The number of its last record, if it has one.
    last: Option<u64>,
    // What is written next.
    text: Vec<u8>,
}

impl<F: JournalFolder> JournalFile<F> {
    ghost use Rattle.wsm_journal.specs.Kept.{IsOpen, folder_of, last_of, records_of};

    /// Reads a folder's journal, and writes its whole records anew, so that all of them are on the disk: also
    /// those that one who was killed has written and not synced. What was read is handed out with it.
    /// A power cut at any moment leaves what it might have left before, or those records.
    ///
    /// # Errors
    ///
    /// There was no memory, a call of the folder failed, or a record isn't whole behind which another is.
    /// The folder is handed back.
    pub fn open(alloc: Global, folder: F) -> Result<(JournalFile<F>, Vec<u8>), (JournalError, F)>
        ensures settled { IfOk result (λ p. IsOpen F.folder p.0) }
        ensures bytes { IfOk result (λ p. IfKnown (F.folder folder) (λ d. p.1.items ≡ bytes_of d.journal)) }
        ensures same { IfOk result (λ p. records_of F.folder p.0 ≡ option_map records_in (F.folder folder)) }
        ensures any_moment { IfOk result (λ p. LeavesSince F.moment F.left_since folder (folder_of p.0) (IsLeftOrRead (F.folder folder))) }
        ensures any_moment_err { IfErr result (λ e. LeavesSince F.moment F.left_since folder e.1 (IsLeftOrRead (F.folder folder))) }
        ensures failed { IfErr result (λ e. e.0 ≡ Failed → F.has_failed e.1 ≡ true) }
        ensures damaged { IfErr result (λ e. e.0 ≡ Damaged → IfKnown (F.folder folder) (λ d. (read_journal (bytes_of d.journal)).behind ≡ Damage)) }
        ensures has_room { IfErr result (λ e. e.0 ≡ Full → ⊥) }
    {
        let mut folder = folder;
        match begin(alloc, &mut folder) {
            Ok((bytes, last)) => Ok((
                JournalFile {
                    folder,
                    last,
                    text: Vec::new(alloc),
                },
                bytes,
            )),
            Err(error) => Err((error, folder)),
        }
    }

    /// Adds a record: rows that came from so many lines of a log, behind which its source stands at a position.
    /// At `Ok` it is on the disk. A power cut at any moment leaves the journal with it or without it, where torn
    /// bytes fit no sum.
    ///
    /// # Errors
    ///
    /// There was no memory, a call of the folder failed, or no number is left. The journal has to be opened again.
    pub fn append(&mut self, lines: u64, rows: &[u8], position: &[u8]) -> Result<(), JournalError>
        requires settled { IsOpen F.folder self.old }
        requires rows { are_rows rows.now ≡ true }
        requires position { is_position position.now ≡ true }
        ensures settled { OnOk result (IsOpen F.folder self.new) }
        ensures appended { OnOk result
            (records_of F.folder self.new
            ≡ option_map (λ es. es ++ entry_behind (last_of self.old) lines rows.now position.now ∷ []) (records_of F.folder self.old)) }
        ensures any_moment { LeavesSince F.moment F.left_since (folder_of self.old) (folder_of self.new)
            (HasOneMore (F.folder (folder_of self.old)) (entry_behind (last_of self.old) lines rows.now position.now)) }
        ensures failed { IsErrOf result Failed → F.has_failed (folder_of self.new) ≡ true }
        ensures full { IsErrOf result Full → last_of self.old ≡ Some (2 ^ 64 - 1) }
        ensures whole { IsErrOf result Damaged → ⊥ }
    {
        let number = number_behind(self.last)?;
        let written = Record {
            number,
            lines,
            rows,
            position,
        };
        write_text(&written, &mut self.text)?;
        append_synced(&mut self.folder, &self.text)?;
        self.last = Some(number);
        Ok(())
    }

    /// Puts other records in the place of the journal's, by a file of their own. At `Ok` they are on the disk.
    /// A power cut at any moment leaves the one text or the other.
    ///
    /// # Errors
    ///
    /// There was no memory, or a call of the folder failed: [`ReplaceError`] says whether the journal goes on.
    pub fn replace(&mut self, alloc: Global, records: &[Record<'_>]) -> Result<(), ReplaceError>
        requires settled { IsOpen F.folder self.old }
        requires records { AreRecords None (map entry_seen records.now) }
        ensures settled { OnOk result (IsOpen F.folder self.new) }
        ensures replaced { OnOk result (records_of F.folder self.new ≡ option_map (λ _. map entry_seen records.now) (records_of F.folder self.old)) }
        ensures kept { IfErr result (λ e. is_kept e ≡ true → IsOpen F.folder self.new × (records_of F.folder self.new ≡ records_of F.folder self.old)) }
        ensures any_moment { LeavesSince F.moment F.left_since (folder_of self.old) (folder_of self.new)
            (IsLeftOr (F.folder (folder_of self.old)) (map entry_seen records.now)) }
        ensures failed { IfErr result (IsCaused (F.has_failed (folder_of self.new))) }
    {
        match replace_all(alloc, &mut self.folder, records) {
            Ok(last) => {
                self.last = last;
                Ok(())
            }
            Err(error) => Err(error),
        }
    }

    /// The folder.
    pub fn into_folder(self) -> F
        ensures { result ≡ folder_of self }
    {
        self.folder
    }
}

// Writes a record's text in the place of another one.
fn write_text(written: &Record<'_>, text: &mut Vec<u8>) -> Result<(), AllocError>
    ensures text { OnOk result (text.new.items ≡ record_text (entry_seen written.now)) }
    ensures sum { OnOk result (entry_sum (entry_seen written.now) < 2 ^ 64) }
{
    text.clear();
    append_record(written, text)
}

// The number behind that of the last record.
fn number_behind(last: Option<u64>) -> Result<u64, JournalError>
    ensures number { IfOk result (λ n. n ≡ next_number last) }
    ensures full { IfErr result (λ e. (e ≡ Full) × (last ≡ Some (2 ^ 64 - 1))) }
{
    match last {
        None => Ok(0),
        Some(u64::MAX) => Err(JournalError::Full),
        Some(last) => Ok(last + 1),
    }
}

// The number of the last of some records.
fn last_number(records: &[Record<'_>]) -> Option<u64>
    ensures { result ≡ last_number None (map entry_seen records.now) }
{
    match records.last() {
        Some(last) => Some(last.number),
        None => None,
    }
}

// Reads a journal and writes it anew. What was read, and the number of its last record.
fn begin<F: JournalFolder>(
    alloc: Global,
    folder: &mut F,
) -> Result<(Vec<u8>, Option<u64>), JournalError>
    ensures bytes { IfOk result (λ p. IfKnown (F.folder folder.old) (λ d. p.0.items ≡ bytes_of d.journal)) }
    ensures settled { IfOk result (λ p. IfKnown (F.folder folder.new) (IsSettledAt p.1)) }
    ensures same { OnOk result (option_map records_in (F.folder folder.new) ≡ option_map records_in (F.folder folder.old)) }
    ensures any_moment { LeavesSince F.moment F.left_since folder.old folder.new (IsLeftOrRead (F.folder folder.old)) }
    ensures failed { IsErrOf result Failed → F.has_failed folder.new ≡ true }
    ensures damaged { IsErrOf result Damaged → IfKnown (F.folder folder.old) (λ d. (read_journal (bytes_of d.journal)).behind ≡ Damage) }
    ensures has_room { IsErrOf result Full → ⊥ }
{
    let bytes = folder.read(alloc)?;
    let last = begin_with(alloc, folder, &bytes)?;
    Ok((bytes, last))
}

// Writes a journal anew that reads so. The number of its last record.
fn begin_with<F: JournalFolder>(
    alloc: Global,
    folder: &mut F,
    bytes: &[u8],
) -> Result<Option<u64>, JournalError>
    requires { IfKnown (F.folder folder.old) (λ d. bytes.now ≡ bytes_of d.journal) }
    ensures settled { IfOk result (λ last. IfKnown (F.folder folder.new) (IsSettledAt last)) }
    ensures same { OnOk result (option_map records_in (F.folder folder.new) ≡ option_map records_in (F.folder folder.old)) }
    ensures any_moment { LeavesSince F.moment F.left_since folder.old folder.new (IsLeftOrRead (F.folder folder.old)) }
    ensures failed { IsErrOf result Failed → F.has_failed folder.new ≡ true }
    ensures damaged { IsErrOf result Damaged → IfKnown (F.folder folder.old) (λ d. (read_journal (bytes_of d.journal)).behind ≡ Damage) }
    ensures has_room { IsErrOf result Full → ⊥ }
{
    let journal = read_journal(alloc, bytes)?;
    if is_damage(journal.behind) {
        return Err(JournalError::Damaged);
    }
    Ok(replace_all(alloc, folder, &journal.records)?)
}

fn is_damage(behind: Behind) -> bool
    ensures { IsTrue result → behind ≡ Damage }
{
    match behind {
        Behind::Damage => true,
        Behind::Nothing | Behind::Torn => false,
    }
}

// Adds bytes to a journal, on the disk.
fn append_synced<F: JournalFolder>(folder: &mut F, bytes: &[u8]) -> Result<(), FolderError>
    ensures done { OnOk result (F.folder folder.new ≡ called Sync (called (Append bytes.now) (F.folder folder.old))) }
    ensures any_moment { LeavesSince F.moment F.left_since folder.old folder.new (MayLeaveSynced bytes.now (F.folder folder.old)) }
    ensures cause { HasCause (F.has_failed folder.new) result }
{
    folder.append(bytes)?;
    folder.sync()
}

// Puts other records in the place of a journal's. The number of the last of them.
fn replace_all<F: JournalFolder>(
    alloc: Global,
    folder: &mut F,
    records: &[Record<'_>],
) -> Result<Option<u64>, ReplaceError>
    requires { AreRecords None (map entry_seen records.now) }
    ensures settled { IfOk result (λ last. IfKnown (F.folder folder.new) (IsSettledAt last)) }
    ensures records { OnOk result (option_map records_in (F.folder folder.new)
        ≡ option_map (λ _. map entry_seen records.now) (option_map records_in (F.folder folder.old))) }
    ensures kept { IfErr result (λ e. is_kept e ≡ true → HasSameNames (F.folder folder.old) (F.folder folder.new)) }
    ensures any_moment { LeavesSince F.moment F.left_since folder.old folder.new (IsLeftOr (F.folder folder.old) (map entry_seen records.now)) }
    ensures failed { IfErr result (IsCaused (F.has_failed folder.new)) }
{
    write_anew(alloc, folder, records)?;
    Ok(last_number(records))
}

// Puts the text of other records in the place of a journal's.
fn write_anew<F: JournalFolder>(
    alloc: Global,
    folder: &mut F,
    records: &[Record<'_>],
) -> Result<(), ReplaceError>
    ensures done { OnOk result (F.folder folder.new ≡ option_map (λ _. settled (journal_text (map entry_seen records.now))) (F.folder folder.old)) }
    ensures kept { IfErr result (λ e. is_kept e ≡ true → HasSameNames (F.folder folder.old) (F.folder folder.new)) }
    ensures any_moment { LeavesSince F.moment F.left_since folder.old folder.new (IsLeftOr (F.folder folder.old) (map entry_seen records.now)) }
    ensures failed { IfErr result (IsCaused (F.has_failed folder.new)) }
{
    write_beside(alloc, folder, records)?;
    take_place(folder)
}

// Writes records to the file that is to take the journal's name, which stays as it is.
fn write_beside<F: JournalFolder>(
    alloc: Global,
    folder: &mut F,
    records: &[Record<'_>],
) -> Result<(), ReplaceError>
    ensures done { OnOk result (F.folder folder.new ≡ option_map (with_next (file_with (journal_text (map entry_seen records.now)) [])) (F.folder folder.old)) }
    ensures names { HasSameNames (F.folder folder.old) (F.folder folder.new) }
    ensures any_moment { LeavesSince F.moment F.left_since folder.old folder.new (MayLeave (F.folder folder.old)) }
    ensures failed { IfErr result (IsCaused (F.has_failed folder.new)) }
{
    match write_next(alloc, folder, records) {
        Ok(()) => Ok(()),
        Err(error) => Err(ReplaceError::Kept(error)),
    }
}

// Puts that file in the journal's place, or leaves it open which of them stands there.
fn take_place<F: JournalFolder>(folder: &mut F) -> Result<(), ReplaceError>
    ensures done { OnOk result (F.folder folder.new ≡ called SyncFolder (called Rename (F.folder folder.old))) }
    ensures either { IfErr result (λ e. is_kept e ≡ false) }
    ensures any_moment { LeavesSince F.moment F.left_since folder.old folder.new (MayLeaveIn Rename (F.folder folder.old)) }
    ensures failed { IfErr result (IsCaused (F.has_failed folder.new)) }
{
    match take_name(folder) {
        Ok(()) => Ok(()),
        Err(error) => Err(ReplaceError::Either(error)),
    }
}

// Writes records to the file that is to take the journal's name.
fn write_next<F: JournalFolder>(
    alloc: Global,
    folder: &mut F,
    records: &[Record<'_>],
) -> Result<(), FolderError>
    ensures done { OnOk result (F.folder folder.new ≡ option_map (with_next (file_with (journal_text (map entry_seen records.now)) [])) (F.folder folder.old)) }
    ensures names { HasSameNames (F.folder folder.old) (F.folder folder.new) }
    ensures any_moment { LeavesSince F.moment F.left_since folder.old folder.new (MayLeave (F.folder folder.old)) }
    ensures cause { HasCause (F.has_failed folder.new) result }
{
    let mut text = Vec::new(alloc);
    for record in records {
        append_record(record, &mut text)?;
    }
    write_synced(folder, &text)
}

// Writes bytes to that file alone, on the disk.
fn write_synced<F: JournalFolder>(folder: &mut F, bytes: &[u8]) -> Result<(), FolderError>
    ensures done { OnOk result (F.folder folder.new ≡ option_map (with_next (file_with bytes.now [])) (F.folder folder.old)) }
    ensures names { HasSameNames (F.folder folder.old) (F.folder folder.new) }
    ensures any_moment { LeavesSince F.moment F.left_since folder.old folder.new (MayLeave (F.folder folder.old)) }
    ensures cause { HasCause (F.has_failed folder.new) result }
{
    folder.create_next()?;
    folder.write_next(bytes)?;
    folder.sync_next()
}

// Gives that file the journal's name, on the disk.
fn take_name<F: JournalFolder>(folder: &mut F) -> Result<(), FolderError>
    ensures done { OnOk result (F.folder folder.new ≡ called SyncFolder (called Rename (F.folder folder.old))) }
    ensures any_moment { LeavesSince F.moment F.left_since folder.old folder.new (MayLeaveIn Rename (F.folder folder.old)) }
    ensures cause { HasCause (F.has_failed folder.new) result }
{
    folder.rename()?;
    folder.sync_folder()
}
