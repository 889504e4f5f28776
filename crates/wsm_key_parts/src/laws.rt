//! What holds of parts, over every history. The contract of each function is the law; a call of it does nothing.

ghost use Rattle.std.specs.Prelude.{◌≡◌, ℕ, ◌<◌, false, List, None, length, ℤ};
ghost use Rattle.wsm_record.specs.declared.words.Form.TheVariants.{Panes};
ghost use Rattle.wsm_record.specs.Event.{Event};
ghost use Rattle.wsm_semantics.specs.Query.{Query};
ghost use Rattle.wsm_semantics.specs.Relation.{turn_rows};
ghost use Rattle.wsm_semantics.specs.ByKey.{Keys, IgnoresTurns, EachOnce};
ghost use Rattle.wsm_key_parts.specs.Merged.{in_order, MergesParts};
ghost use Rattle.wsm_key_parts.specs.TakenAlone.{TakenAlone};
ghost use Rattle.wsm_key_parts.specs.OpenedLate.{OpensLate};
ghost use Rattle.wsm_key_parts.specs.Names.{NumbersStay};
ghost use Rattle.wsm_key_parts.specs.Parts.{AreFor, DecidesByPlaces, IgnoresKeys, MayBeParted, over, query_in, WritesTogether};

/// The rows that a turn writes of panes, retract rows too, stand in one order: so those of parts by key need only be merged, and
/// nothing is to be told of how the whole has them.
pub fn merged()
    ensures order { (q : Query) → q.form ≡ Panes → (past : List Event) (e : Event) → in_order (turn_rows q past e) ≡ turn_rows q past e }
    ensures parts { (q : Query) → IgnoresTurns q → q.form ≡ Panes → (parts : List Keys) → EachOnce parts → MergesParts q parts }
{}

/// What is refused may be left out: behind the events that were taken each event has its verdict and writes its rows, and with as many
/// RECORDS or more none of them is refused.
pub fn taken_alone()
    ensures { (q : Query) → MayBeParted q → TakenAlone q }
{}

/// A part of which no record came so far may be opened behind watermarks that set the marks of the sources as they are. These are taken;
/// and so is each event of the part that is taken, which writes the same rows.
pub fn opened_late()
    ensures { (q : Query) → MayBeParted q → (keys : Keys) → keys None ≡ false → OpensLate q keys }
{}

/// A front that decides on each event, and parts of so many keys each, which are opened as their first record is taken and are fed
/// what is taken alone, write line by line what one query over all keys writes, whatever rows come, and the same end row. Each part
/// takes what it is fed. It runs the query over its places, with as many RECORDS or more; where the query doesn't go by keys this is
/// one query for all of them. The front too may decide by places.
pub fn together()
    ensures lines { (places : List (List ℕ)) (records : ℤ) (q : Query) → MayBeParted q → AreFor places records q → WritesTogether places records q }
    ensures places { (places : List (List ℕ)) (q : Query) → 0 < length places → DecidesByPlaces places q }
    ensures query { (places : List (List ℕ)) (records : ℤ) (q : Query) → IgnoresKeys q → (part : ℕ) → query_in places records q part ≡ over places records q }
{}

/// A name has a number as it comes, and keeps it as others come.
pub fn numbers_stay()
    ensures { NumbersStay }
{}
