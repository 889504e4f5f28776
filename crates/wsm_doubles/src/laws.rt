//! What holds of the identifiers that are remembered. The contract of each function is the law; a call
//! of it does nothing.

ghost use Rattle.std.specs.Prelude.{◌≡◌, ◌≤ℤ◌, ℕ, ℤ, List, [], false, map};
ghost use Rattle.wsm_windows.specs.declared.window.Shape.{Shape};
ghost use Rattle.wsm_admission.specs.declared.clock.Clock.{Clock};
ghost use Rattle.wsm_semantics.specs.Query.{Query};
ghost use Rattle.wsm_semantics.specs.Deliveries.{passing};
ghost use Rattle.wsm_doubles.specs.Memory.{Kept, Memory, Recalls, is_known, least_room, live};
ghost use Rattle.wsm_doubles.specs.Passing.{FollowsDeliveries, TextDelivery, IsNumbered, number_of, numbered_delivery, passing_texts};

/// Before a record has passed nothing is known. Where the watermark rises, what is kept knows what is left
/// of the memory that it knew, and nothing that it didn't know.
pub fn recalls()
    ensures begins { (c : Clock) (shape : Shape) (mark : ℤ) → Recalls c shape mark (record { entries = []; room = least_room }) [] }
    ensures rises { (c : Clock) (shape : Shape) (mark later : ℤ) (kept : Kept) (memory : Memory)
        → mark ≤ℤ later → Recalls c shape mark kept memory → Recalls c shape later kept (live c shape later memory) }
    ensures unknown { (c : Clock) (shape : Shape) (mark later : ℤ) (i : List ℕ) (kept : Kept)
        → mark ≤ℤ later → is_known c shape mark i kept ≡ false → is_known c shape later i kept ≡ false }
{}

/// Each text has a number of its own. What passes of deliveries whose identifiers are texts is what passes of
/// them by these numbers, so the law `passes_once` of `wsm_semantics` speaks of it.
pub fn passes_by_number()
    ensures numbers { (x y : List ℕ) → number_of x ≡ number_of y → x ≡ y }
    ensures passing { (q : Query) (ds : List TextDelivery) → IsNumbered (passing_texts q ds) (passing q (map numbered_delivery ds)) }
{}

/// What is kept knows what is remembered of deliveries, one behind the other. So whoever asks of each record
/// whether it is a double at the watermark, and takes note of what passes, lets pass what passes of them.
pub fn follows_deliveries()
    ensures { (q : Query) (ds : List TextDelivery) → FollowsDeliveries q ds }
{}
