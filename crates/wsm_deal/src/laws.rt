//! What holds of the rows of each part. The contract of each function is the law; a call of it does
//! nothing.

ghost use Rattle.std.specs.Prelude.{◌≡◌, ◌<◌, ℕ, List, Some, map};
ghost use Rattle.wsm_record.specs.Schema.{Declared};
ghost use Rattle.wsm_record.specs.declared.words.Form.TheVariants.{Panes};
ghost use Rattle.wsm_semantics.specs.Query.{Query};
ghost use Rattle.wsm_semantics.specs.ByKey.{of_keys, IgnoresTurns};
ghost use Rattle.wsm_semantics.specs.Lines.{events};
ghost use Rattle.wsm_csv.specs.Cells.{event_of_cells};
ghost use Rattle.wsm_csv.specs.Records.{AreAll};
ghost use Rattle.wsm_deal.specs.Deal.{Sharing, dealt_to, keys_of};
ghost use Rattle.wsm_deal.specs.PartText.{part_text};
ghost use Rattle.wsm_deal.specs.Runs.{RunsByKey, VerdictsByKey};

/// What bytes are read as, dealt to a part and written, is read as the rows of the part: those of the
/// whole without what goes elsewhere, in their order.
pub fn read_back()
    ensures { (bytes : List ℕ) (rows : List (List (List ℕ))) → AreAll (Some bytes) rows → (s : Sharing) (part : ℕ) →
        AreAll (Some (part_text (dealt_to s part rows))) (dealt_to s part rows) }
{}

/// The events of a part's rows, where all keys are declared in their order, are those of the whole of the
/// keys of the part: the part of a history that the law by key speaks of.
pub fn events_by_key()
    ensures { (s : Sharing) (declared : Declared) → declared.keys ≡ s.names → (part : ℕ) (rows : List (List (List ℕ))) →
        events (map (event_of_cells declared) (dealt_to s part rows)) ≡ of_keys (keys_of s part) (events (map (event_of_cells declared) rows)) }
{}

/// What the runs of the parts write, key by key, is what one run over all rows writes, as long as that one
/// refuses no record for RECORDS: for any query that declares all keys in their order, any parts and any rows. A
/// part's run is that of the query over the part's keys alone, and reads the rows that are dealt to the part. In it
/// a row has the fault, or its event the verdict, that it has in the one run. Where panes are written, the rows of
/// the one run for a row, of panes and of those that are withdrawn, are for the keys of each part those that the
/// part's run writes for it, in their order, each key by its number among all; and none where the row goes to
/// another part.
pub fn runs_by_key()
    ensures verdicts { (s : Sharing) → 0 < s.block → (q : Query) → q.declared.keys ≡ s.names → VerdictsByKey s q }
    ensures rows { (s : Sharing) → 0 < s.block → (q : Query) → q.declared.keys ≡ s.names → IgnoresTurns q → q.form ≡ Panes → RunsByKey s q }
{}
