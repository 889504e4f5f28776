//! Which members of an object are read: those whose names may be asked for.
ghost use Rattle.std.specs.Prelude.{◌≡◌, ◌==◌, ◌||◌, ◌<◌, ℕ, List, slice_index, true};
ghost use Rattle.wsm_lines.specs.Members.{PassesSource, Widens, bucket_of, passes, passes_fields, passes_first, passes_maybe, passes_place};

use crate::source::{Field, Place, Source};
use wsm_values::Word;

/// Names by their buckets. Each name that was marked passes, and others may.
#[derive(Clone, Copy)]
pub(crate) struct NameFilter {
    pub(crate) buckets: [bool; 256],
}

impl NameFilter {
    /// The names that a source asks for first, from the whole line inward, pass.
    pub(crate) fn of(source: &Source) -> NameFilter
        ensures { PassesSource result.buckets source.now }
    {
        let mut buckets = [false; 256];
        mark_place(&mut buckets, &source.key.at);
        mark_place(&mut buckets, &source.time.at);
        mark_fields(&mut buckets, source.fields.items());
        mark_maybe(&mut buckets, &source.identifier);
        mark_maybe(&mut buckets, &source.clock);
        NameFilter { buckets }
    }

    /// Whether a name passes.
    pub(crate) fn passes(&self, name: &[u8]) -> bool
        ensures { result ≡ passes self.now.buckets name.now }
    {
        self.buckets[bucket_of(name)]
    }
}

// The first byte of a name, 0 where it has none.
fn first_byte(name: &[u8]) -> u8
    ensures { result ≡ slice_index name.now 0 }
{
    match name.split_first() {
        None => 0,
        Some((byte, _)) => *byte,
    }
}

// The bucket of a name, by its length and its first byte.
fn bucket_of(name: &[u8]) -> usize
    ensures value { result ≡ bucket_of name.now }
    ensures within { result < 256 }
{
    name.len() % 16 * 16 + first_byte(name) as usize % 16
}

// Has a name pass.
fn mark(buckets: &mut [bool; 256], name: &[u8])
    ensures { (n : List ℕ) → passes buckets.new n ≡ (passes buckets.old n || bucket_of n == bucket_of name.now) }
{
    buckets[bucket_of(name)] = true;
}

// Has the first of some names pass.
#[tactic(auto, using(crate::proofs::FilterLemmas::marked_passes, crate::proofs::FilterLemmas::marked_widens))]
fn mark_first(buckets: &mut [bool; 256], names: &[Word])
    ensures marked { passes_first buckets.new names.now ≡ true }
    ensures widens { Widens buckets.old buckets.new }
{
    match names.split_first() {
        None => (),
        Some((name, _)) => mark(buckets, name.as_str().as_bytes()),
    }
}

// Has the first name of a place pass.
fn mark_place(buckets: &mut [bool; 256], place: &Place)
    ensures marked { passes_place buckets.new place.now ≡ true }
    ensures widens { Widens buckets.old buckets.new }
{
    match place {
        Place::Path(names) => mark_first(buckets, names.items()),
        Place::Column(_) => (),
    }
}

// Has the first name of a place pass, if there is one.
fn mark_maybe(buckets: &mut [bool; 256], place: &Option<Place>)
    ensures marked { passes_maybe buckets.new place.now ≡ true }
    ensures widens { Widens buckets.old buckets.new }
{
    match place {
        Some(place) => mark_place(buckets, place),
        None => (),
    }
}

// Has the first name of each field's place pass.
#[tactic(auto, using(crate::proofs::FilterLemmas::wider_place, crate::proofs::FilterLemmas::both_pass))]
fn mark_fields(buckets: &mut [bool; 256], fields: &[Field])
    ensures marked { passes_fields buckets.new fields.now ≡ true }
    ensures widens { Widens buckets.old buckets.new }
{
    match fields.split_first() {
        None => (),
        Some((field, rest)) => {
            mark_place(buckets, &field.at);
            mark_fields(buckets, rest);
        }
    }
}
