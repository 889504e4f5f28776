//! What holds of journals. The contract of each function is the law; a call of it does nothing.

ghost use Rattle.std.specs.Prelude.{◌≡◌, ◌<◌, ◌^◌, ◌++◌, ◌∷◌, ◌⊎◌, [], ℕ, List, None, true, length};
ghost use Rattle.wsm_journal.specs.Text.{Entry, AreRecords, IsRecord, entry_sum, journal_text, last_number, record_text};
ghost use Rattle.wsm_journal.specs.Reading.{is_later, next_whole, read_journal, reading_with};
ghost use Rattle.wsm_journal.specs.Laws.{FitsNoSum, IsOfBytes, IsBeforeOrAfter, read_as};
ghost use Rattle.wsm_journal.specs.Folder.{EachMoment, LeavesOnly, after_calls, append_calls, replace_calls, settled};
ghost use Rattle.wsm_journal.specs.declared.reading.Behind.TheVariants.{Damage};

/// The sum of a record that is made of bytes fits, as is asked of records that can be written.
pub fn sums_fit()
    ensures { (e : Entry) → IsOfBytes e → entry_sum e < 2 ^ 64 }
{}

/// Reading what was written gives the same records, with nothing behind them.
pub fn read_back()
    ensures { (entries : List Entry) → AreRecords None entries → read_journal (journal_text entries) ≡ read_as entries [] }
{}

/// Where an append left these bytes behind whole records, the text reads as those records: with the one
/// that was appended, where the bytes are its own, and else without it. Of torn bytes it is asked that they
/// fit no sum: at no place of them stands a line that has the sum of the bytes in front of it.
pub fn torn_appends()
    ensures whole { (entries : List Entry) (more : Entry) → AreRecords None (entries ++ more ∷ []) →
        read_journal (journal_text entries ++ record_text more) ≡ read_as (entries ++ more ∷ []) [] }
    ensures torn { (entries : List Entry) (torn : List ℕ) → AreRecords None entries → FitsNoSum torn →
        read_journal (journal_text entries ++ torn) ≡ read_as entries torn }
{}

/// A whole record with a later number, behind bytes that the next record isn't whole in, reads as damage.
pub fn damage_is_told()
    ensures { (entries : List Entry) (torn : List ℕ) (later : Entry) (rest : List ℕ) → AreRecords None entries → IsRecord later →
        is_later (last_number None entries) later.number ≡ true → next_whole (last_number None entries) (torn ++ (record_text later ++ rest)) ≡ None →
        read_journal (journal_text entries ++ (torn ++ (record_text later ++ rest))) ≡ reading_with entries (length (journal_text entries)) Damage }
{}

/// A power cut before, in or behind an append that is written and synced leaves a text that reads as the
/// records with the new one or without it, where torn bytes fit no sum. Behind the sync it has the new one.
pub fn cut_appends()
    ensures moments { (entries : List Entry) (more : Entry) → AreRecords None (entries ++ more ∷ []) →
        EachMoment (LeavesOnly (IsBeforeOrAfter entries more)) (settled (journal_text entries)) (append_calls (record_text more)) }
    ensures last { (old more : List ℕ) → after_calls (settled old) (append_calls more) ≡ settled (old ++ more) }
{}

/// A power cut at any moment while another text is written, synced, renamed and its folder synced leaves
/// the old text or the new one by the journal's name; behind all that the new one.
pub fn cut_replacements()
    ensures moments { (old new : List ℕ) → EachMoment (LeavesOnly (λ left. (left ≡ old) ⊎ (left ≡ new))) (settled old) (replace_calls new) }
    ensures last { (old new : List ℕ) → after_calls (settled old) (replace_calls new) ≡ settled new }
{}
