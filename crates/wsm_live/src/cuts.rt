//! A head in the place of a journal's records.

ghost use Rattle.std.specs.Prelude.{◌≡◌, ◌∷◌, [], true, false, IfErr, IfOk, OnOk, option_map};
ghost use Rattle.wsm_journal.specs.Text.{IsRecord};
ghost use Rattle.wsm_journal.specs.Calls.{LeavesSince};
ghost use Rattle.wsm_journal.specs.Kept.{IsCaused, IsLeftOr, IsOpen, folder_of, is_kept, records_of};
ghost use Rattle.wsm_live.specs.Live.{can_be_head, head_entry};

use std::alloc::{AllocError, Global};
use wsm_journal::{
    FolderError, JournalFile, JournalFolder, Record, ReplaceError, append_record, are_rows,
    is_position,
};

// Whether a head with these rows, at a position, can be written.
fn is_head(alloc: Global, rows: &[u8], position: &[u8]) -> Result<bool, AllocError>
    ensures is_record { IfOk result (λ is. is ≡ true → IsRecord (head_entry rows.now position.now)) }
    ensures when { IfOk result (λ is. is ≡ can_be_head rows.now position.now) }
{
    let head = Record {
        number: 0,
        lines: 0,
        rows,
        position,
    };
    let mut text = Vec::new(alloc);
    append_record(&head, &mut text)?;
    if are_rows(rows) {
        Ok(is_position(position))
    } else {
        Ok(false)
    }
}

/// Puts a head with these rows in the place of a journal's records; answers false where they can't be a record, and all is as it was.
pub fn replace_by_head<F: JournalFolder>(
    alloc: Global,
    journal: &mut JournalFile<F>,
    rows: &[u8],
    position: &[u8],
) -> Result<bool, ReplaceError>
    requires settled { IsOpen F.folder journal.old }
    ensures settled { OnOk result (IsOpen F.folder journal.new) }
    ensures replaced { IfOk result
        (λ is_cut. is_cut ≡ true →
        records_of F.folder journal.new ≡ option_map (λ _. head_entry rows.now position.now ∷ []) (records_of F.folder journal.old)) }
    ensures uncut { IfOk result (λ is_cut. is_cut ≡ false → records_of F.folder journal.new ≡ records_of F.folder journal.old) }
    ensures when { IfOk result (λ is_cut. is_cut ≡ can_be_head rows.now position.now) }
    ensures kept { IfErr result (λ e. is_kept e ≡ true → IsOpen F.folder journal.new × (records_of F.folder journal.new ≡ records_of F.folder journal.old)) }
    ensures any_moment { LeavesSince F.moment F.left_since (folder_of journal.old) (folder_of journal.new)
        (IsLeftOr (F.folder (folder_of journal.old)) (head_entry rows.now position.now ∷ [])) }
    ensures failed { IfErr result (IsCaused (F.has_failed (folder_of journal.new))) }
{
    let head = Record {
        number: 0,
        lines: 0,
        rows,
        position,
    };
    match is_head(alloc, rows, position) {
        Ok(true) => {
            journal.replace(alloc, &[head])?;
            Ok(true)
        }
        Ok(false) => Ok(false),
        Err(error) => Err(ReplaceError::Kept(FolderError::from(error))),
    }
}
