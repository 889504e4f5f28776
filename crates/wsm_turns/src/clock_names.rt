//! The names of the clocks that lines name.

ghost use Rattle.std.specs.Prelude.{◌≡◌, ◌<◌, List, [], ℕ, Option, IfOk, IfSome, option_map, unwrap_or};
ghost use Rattle.wsm_watermarks.specs.declared.stamp.Stamp.{Stamp as AnyStamp};
ghost use Rattle.wsm_turns.specs.Named.{Knows};
ghost use Rattle.wsm_turns.specs.Voices.{stamp_by, voiced};

use crate::voice::Voice;
use indexmap::IndexSet;
use std::alloc::{AllocError, Global};
use std::marker::Model;

/// The names of the clocks that have spoken, of which there may be so many. A clock's number is the place of its name.
#[derive(Drop)]
pub struct ClockNames {
    alloc: Global,
    names: IndexSet<Vec<u8>>,
    most: usize,
}

impl Model for ClockNames {
    ghost use Rattle.std.specs.Prelude.{◌≤◌, length, map};
    ghost use Rattle.wsm_turns.specs.Named.{Named};

    ghost Value = { Named };

    ghost view = { λ a. record { most = a.most; names = map (λ v. v.items) a.names.keys } };

    ghost invariant = { λ a. length a.names.keys ≤ a.most };
}

impl ClockNames {
    ghost use Rattle.std.specs.Prelude.{◌≡◌, ◌++◌, ◌∷◌, [], None, IfOk, IfSome, length, map, option_map, position, bytes_eq, slice_get, false, true};
    ghost use Rattle.wsm_record.specs.Name.{is_among};
    ghost use Rattle.wsm_turns.specs.Named.{IsWithin};
    ghost use Rattle.wsm_turns.specs.Voices.{numbered_by, voiced_by};

    // No clock has spoken.
    fn open(alloc: Global, most: usize) -> Result<ClockNames, AllocError>
        ensures { IfOk result (λ names. names ≡ record { most = most; names = [] }) }
    {
        Ok(ClockNames {
            alloc,
            names: IndexSet::with_capacity(alloc, most)?,
            most,
        })
    }

    /// The names that others have come to, of which there may be so many; none where one stands twice, or there are more.
    ///
    /// # Errors
    ///
    /// Memory was refused.
    pub fn resume(
        alloc: Global,
        most: usize,
        names: &[Vec<u8>],
    ) -> Result<Option<ClockNames>, AllocError>
        ensures { IfOk result (λ o. IfSome o (λ known. known ≡ record { most = most; names = map (λ v. v.items) names.now })) }
    {
        let mut known = ClockNames::open(alloc, most)?;
        for name in names {
            if !known.add_new(name.to_vec(alloc)?)? {
                return Ok(None);
            }
        }
        Ok(Some(known))
    }

    // Adds a name that isn't there, where there is room for it.
    fn add_new(&mut self, name: Vec<u8>) -> Result<bool, AllocError>
        ensures most { self.new.most ≡ self.old.most }
        ensures names { IfOk result (λ is_new. is_new ≡ true → self.new.names ≡ self.old.names ++ name.items ∷ []) }
    {
        if self.names.len() >= self.most {
            return Ok(false);
        }
        Ok(self.names.insert(name)?)
    }

    /// How many have spoken.
    pub fn len(&self) -> usize
        ensures { result ≡ length self.now.names }
    {
        self.names.len()
    }

    /// The name of a clock, if it has spoken.
    pub fn name(&self, clock: usize) -> Option<&[u8]>
        ensures { option_map (λ t. t.now) result ≡ slice_get self.now.names clock }
    {
        match self.names.get_index(clock) {
            Some(name) => Some(name.as_slice()),
            None => None,
        }
    }

    // Whose clock it is that a line names, or names none.
    fn voice(&mut self, name: Option<&[u8]>) -> Result<Voice, AllocError>
        ensures most { self.new.most ≡ self.old.most }
        ensures voice { IfOk result (λ v. record { voice = v; names = self.new.names }
            ≡ voiced_by self.old.most self.old.names (option_map (λ t. t.now) name.entry)) }
        ensures within { IfOk result (IsWithin self.old.most) }
    {
        match name {
            Some(name) => self.numbered(name),
            None => Ok(Voice::Silent),
        }
    }

    // Whose clock it is that has a name.
    fn numbered(&mut self, name: &[u8]) -> Result<Voice, AllocError>
        ensures most { self.new.most ≡ self.old.most }
        ensures voice { IfOk result (λ v. record { voice = v; names = self.new.names }
            ≡ numbered_by self.old.most self.old.names name.now (position (bytes_eq name.now) self.old.names)) }
        ensures within { IfOk result (IsWithin self.old.most) }
    {
        match self.names.get_index_of(name) {
            Some(number) => Ok(Voice::Named(number)),
            None => self.add(name),
        }
    }

    // Whose clock it is that has a new name.
    #[cold]
    fn add(&mut self, name: &[u8]) -> Result<Voice, AllocError>
        requires { is_among name.now self.old.names ≡ false }
        ensures most { self.new.most ≡ self.old.most }
        ensures voice { IfOk result (λ v. record { voice = v; names = self.new.names } ≡ numbered_by self.old.most self.old.names name.now None) }
        ensures within { IfOk result (IsWithin self.old.most) }
    {
        let number = self.names.len();
        if number >= self.most {
            return Ok(Voice::Silent);
        }
        self.names.insert(name.to_vec(self.alloc)?)?;
        Ok(Voice::Named(number))
    }
}

/// The names of clocks before one has spoken, where lines name them: how many there may be is said then.
///
/// # Errors
///
/// Memory was refused.
pub fn open_names(alloc: Global, named: Option<usize>) -> Result<Option<ClockNames>, AllocError>
    ensures { IfOk result (λ names. Knows named names []) }
{
    match named {
        Some(most) => Ok(Some(ClockNames::open(alloc, most)?)),
        None => Ok(None),
    }
}

/// Whose clock it is by which a record tells its time, where its line names a clock or none.
///
/// # Errors
///
/// Memory for a new name was refused.
pub fn voice_of(names: &mut Option<ClockNames>, name: Option<&[u8]>) -> Result<Voice, AllocError>
    ensures voice { (named : Option ℕ) (before : List (List ℕ)) → Knows named names.old before →
        IfOk result (λ v. v ≡ (voiced named before (option_map (λ t. t.now) name.entry)).voice) }
    ensures names { (named : Option ℕ) (before : List (List ℕ)) → Knows named names.old before →
        IfOk result (λ _. Knows named names.new (voiced named before (option_map (λ t. t.now) name.entry)).names) }
    ensures within { (named : Option ℕ) (before : List (List ℕ)) (keys : ℕ) (stamp : AnyStamp) → Knows named names.old before → stamp.clock < keys →
        IfOk result (λ v. IfSome (stamp_by v stamp) (λ s. s.clock < unwrap_or named keys)) }
{
    match names {
        Some(names) => names.voice(name),
        None => Ok(Voice::Key),
    }
}
