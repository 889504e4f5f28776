//! Which part has which keys.

ghost use Rattle.std.specs.Prelude.{◌≡◌, ◌<◌, ◌≤◌, ◌+◌, ◌∷◌, ◌⊎◌, ℕ, List, Err, IfErr, IfOk, Ok, OnOk, length, map};
ghost use Rattle.std.specs.Int.{div_ceil};
ghost use Rattle.wsm_deal.specs.Keys.{keys_a_part, keys_behind, keys_of_text, lines_of, refusal_of};
ghost use Rattle.wsm_deal.specs.KeysText.{keys_text};
ghost use Rattle.wsm_deal.specs.declared.shares.SharesRefusal.TheVariants as SharesRefusal;

use crate::guesses::{Guesses, NEAR};
use crate::words::{Words, long_words_of};
use csv::ByteRecord;
use indexmap::IndexSet;
use memchr::memchr;
use std::alloc::{AllocError, Global};
use std::fmt;
use std::marker::Model;
use wsm_record::Name;
use wsm_record::limits::MAX_NAMES;
use wsm_record::marks::{sum_of, word_of};

// The part that has what is no event, or of no known key.
const REST: usize = 0;

/// Why keys are dealt to no parts. Its text is as `K1 BadName in line 3`.
#[derive(Clone, Copy, Debug, PartialEq, Eq)]
pub enum SharesRefusal {
    /// A line, counted from 1, has no name.
    BadName(u64),
    /// The name of a line stands in one before.
    DuplicateName(u64),
    /// There is no name.
    NoNames,
    /// The number of parts is no number, or no part has the number that is asked for.
    BadNumber,
    /// A part would have more keys than a query; so many parts would do.
    TooFewParts(u64),
    /// Parts would have no keys; so many would have some.
    TooManyParts(u64),
    /// Memory was refused.
    Memory,
}

impl fmt::Display for SharesRefusal {
    ghost use Rattle.std.specs.Prelude.{Some};
    ghost use Rattle.wsm_deal.specs.Text.{refusal_text};

    ghost output = { λ refusal. Some (refusal_text refusal) };

    fn fmt<W: fmt::Write>(&self, f: &mut fmt::Formatter<W>) -> fmt::Result {
        match self {
            SharesRefusal::BadName(line) => write!(f, "K1 BadName in line {line}"),
            SharesRefusal::DuplicateName(line) => write!(f, "K2 DuplicateName in line {line}"),
            SharesRefusal::NoNames => f.write_str("K3 NoNames"),
            SharesRefusal::BadNumber => f.write_str("K4 BadNumber"),
            SharesRefusal::TooFewParts(parts) => write!(f, "K5 TooFewParts, {parts} would do"),
            SharesRefusal::TooManyParts(parts) => write!(f, "K6 TooManyParts, {parts} would do"),
            SharesRefusal::Memory => f.write_str("out of memory"),
        }
    }
}

impl From<AllocError> for SharesRefusal {
    ghost use Rattle.std.specs.Prelude.{◌≡◌};
    ghost use Rattle.wsm_deal.specs.declared.shares.SharesRefusal.TheVariants.{Memory};

    ghost from_gives = { λ _ e. e ≡ Memory };

    fn from(_error: AllocError) -> SharesRefusal {
        SharesRefusal::Memory
    }
}

/// Where a row goes.
#[derive(Clone, Copy, Debug, PartialEq, Eq)]
pub enum Goal {
    /// To one part.
    One(usize),
    /// To each part.
    All,
}

/// Keys in their order, of which each part has a block.
#[derive(Drop)]
pub struct Shares {
    names: IndexSet<Vec<u8>>,
    // How many keys a part has, but perhaps the last.
    block: usize,
    // What is tried first for a key.
    guesses: Guesses,
}

impl Model for Shares {
    ghost use Rattle.std.specs.List.{IsDistinct};
    ghost use Rattle.std.specs.Prelude.{◌<◌, bytes_eq, map};
    ghost use Rattle.wsm_deal.specs.Deal.{Sharing};
    ghost use Rattle.wsm_deal.specs.KeyGuesses.{AreGuesses};

    ghost Value = { Sharing };

    ghost view = { λ a. record { names = map (λ v. v.items) a.names.keys; block = a.block } };

    ghost invariant = { λ a. (0 < a.block) × (AreGuesses (map (λ v. v.items) a.names.keys) a.block a.guesses.guesses.items ×
        IsDistinct (λ x y. bytes_eq x.items y.items) a.names.keys) };
}

impl Shares {
    ghost use Rattle.std.specs.Prelude.{◌≡◌, ◌<◌, ◌≤◌, ◌∷◌, ◌⊎◌, [], ℕ, List, Err, IfErr, IfOk, IfSome, Ok, Some, bytes_eq, length, map, position, slice_get};
    ghost use Rattle.csv.specs.Records.{fields_of};
    ghost use Rattle.wsm_deal.specs.Deal.{goal_of, names_of, part_of, record_part};
    ghost use Rattle.wsm_deal.specs.Keys.{sharing_for, sharing_of};
    ghost use Rattle.wsm_deal.specs.KeyGuesses.{worth_of};
    ghost use Rattle.wsm_deal.specs.KeysText.{keys_text};
    ghost use Rattle.wsm_deal.specs.PartCount.{part_count};
    ghost use Rattle.wsm_deal.specs.Runs.{block_of};
    ghost use Rattle.wsm_record.specs.Guesses.{AreBytes, spelled};
    ghost use Rattle.wsm_deal.specs.declared.shares.SharesRefusal.TheVariants as SharesRefusal;

    /// The keys of a text with a name a line, in blocks for so many parts.
    ///
    /// # Errors
    ///
    /// The first line that is no name or has that of one before is refused, then that there is none, and
    /// then so few parts that one had more keys than a query, or so many that one had none.
    pub fn of(alloc: Global, text: &[u8], parts: usize) -> Result<Shares, SharesRefusal>
        ensures shared { IfOk result (λ shares. sharing_of text.now parts ≡ Ok shares) }
        ensures parts { IfOk result (λ shares. part_count shares ≡ parts) }
        ensures most { IfOk result (λ shares. shares.block ≤ MAX_NAMES) }
        ensures refused { IfErr result (λ refusal. (refusal ≡ SharesRefusal.Memory) ⊎ (sharing_of text.now parts ≡ Err refusal)) }
    {
        let names = names_of(alloc, text)?;
        let block = keys_a_part(names.len(), parts)?;
        let guesses = Guesses::of(alloc, names.as_slice(), block)?;
        Ok(Shares {
            names,
            block,
            guesses,
        })
    }

    /// The same where the number of parts may not be known, as where a word is none.
    ///
    /// # Errors
    ///
    /// The faults of the text come first, then that there is no number, and then those of the number.
    pub fn for_parts(
        alloc: Global,
        text: &[u8],
        parts: Option<usize>,
    ) -> Result<Shares, SharesRefusal>
        ensures shared { IfOk result (λ shares. sharing_for text.now parts ≡ Ok shares) }
        ensures refused { IfErr result (λ refusal. (refusal ≡ SharesRefusal.Memory) ⊎ (sharing_for text.now parts ≡ Err refusal)) }
    {
        match parts {
            Some(parts) => Shares::of(alloc, text, parts),
            None => Err(refusal_of(alloc, text)),
        }
    }

    /// What gives the memory of the keys.
    pub(crate) fn allocator(&self) -> Global {
        self.guesses.allocator()
    }

    /// How many parts there are.
    pub fn parts(&self) -> usize
        ensures { result ≡ part_count self.now }
    {
        self.names.len().div_ceil(self.block)
    }

    /// The `KEYS` clause of a part's query, and a line feed.
    pub fn clause_of(&self, alloc: Global, part: usize) -> Result<Vec<u8>, SharesRefusal>
        ensures text { IfOk result (λ text. text.items ≡ keys_text (block_of self.now part)) }
        ensures some { IfOk result (λ _. 0 < length (block_of self.now part)) }
        ensures refused { IfErr result (λ r. (r ≡ SharesRefusal.Memory) ⊎ ((r ≡ SharesRefusal.BadNumber) × (block_of self.now part ≡ []))) }
    {
        let Some((first, rest)) = self.names_of(part).split_first() else {
            return Err(SharesRefusal::BadNumber);
        };
        Ok(keys_clause(alloc, first, rest)?)
    }

    // The names of a part, in their order.
    fn names_of(&self, part: usize) -> &[Vec<u8>]
        ensures { map (λ v. v.items) result.now ≡ block_of self.now part }
    {
        let names = self.names.as_slice();
        let start = part.saturating_mul(self.block).min(names.len());
        let end = start.saturating_add(self.block).min(names.len());
        &names[start..end]
    }

    /// Where a row goes.
    #[inline(always)]
    pub fn goal_of(&self, row: &ByteRecord) -> Goal
        ensures { result ≡ goal_of self.now (fields_of row.now) }
    {
        match row.get(0) {
            Some(tag) => self.goal_by(tag, row),
            None => Goal::One(REST),
        }
    }

    // The same by its tag.
    #[inline(always)]
    fn goal_by(&self, tag: &[u8], row: &ByteRecord) -> Goal
        ensures { (cells : List (List ℕ)) → fields_of row.now ≡ tag.now ∷ cells → result ≡ goal_of self.now (tag.now ∷ cells) }
    {
        match tag {
            b"r" => Goal::One(self.record_part(row)),
            b"w" => Goal::All,
            _ => Goal::One(REST),
        }
    }

    // The part of a record.
    #[inline(always)]
    fn record_part(&self, row: &ByteRecord) -> usize
        ensures { result ≡ record_part self.now (slice_get (fields_of row.now) 1) }
    {
        match row.get(1) {
            Some(key) => self.part_of(key),
            None => REST,
        }
    }

    // The part of a key; the first one has what is no key.
    #[inline(always)]
    fn part_of(&self, key: &[u8]) -> usize
        ensures { result ≡ part_of self.now key.now }
    {
        match word_of(key) {
            Some(word) => self.part_of_words(key, Words::of_word(word)),
            None => self.part_of_long(key),
        }
    }

    // The same of a key that has these words.
    fn part_of_words(&self, key: &[u8], words: Words) -> usize
        requires { spelled key.now ≡ worth_of words }
        ensures { result ≡ part_of self.now key.now }
    {
        match self.guess_words(words, 0) {
            Some(part) => part,
            None => self.part_near(key, words),
        }
    }

    // The same where what is tried at its place hasn't it.
    #[inline(never)]
    fn part_near(&self, key: &[u8], words: Words) -> usize
        requires { spelled key.now ≡ worth_of words }
        ensures { result ≡ part_of self.now key.now }
    {
        for step in 1..NEAR {
            if let Some(part) = self.guess_words(words, step) {
                return part;
            }
        }
        self.search(key)
    }

    // The part of a key of eight bytes or more.
    #[inline(never)]
    fn part_of_long(&self, key: &[u8]) -> usize
        ensures { result ≡ part_of self.now key.now }
    {
        match long_words_of(key) {
            Some(words) => self.part_of_words(key, words),
            None => self.part_by_sum(key),
        }
    }

    // The part of a key that has no words.
    #[inline(never)]
    fn part_by_sum(&self, key: &[u8]) -> usize
        ensures { result ≡ part_of self.now key.now }
    {
        let sum = sum_of(key);
        for step in 0..NEAR {
            if let Some(part) = self.guess_name(key, sum, step) {
                return part;
            }
        }
        self.search(key)
    }

    // The part of a key with these words, where what is tried at this step has it.
    fn guess_words(&self, words: Words, step: usize) -> Option<usize>
        ensures { (key : List ℕ) → AreBytes key → spelled key ≡ worth_of words → IfSome result (λ part. part ≡ part_of self.now key) }
    {
        let guess = self.guesses.at(words.mark(), step)?;
        if guess.words.are(words) {
            Some(guess.part as usize)
        } else {
            None
        }
    }

    // The same of a key that has no words, by its sum.
    fn guess_name(&self, key: &[u8], sum: u64, step: usize) -> Option<usize>
        ensures { IfSome result (λ part. part ≡ part_of self.now key.now) }
    {
        let number = self.guesses.at(sum, step)?.number as usize;
        let name = self.names.as_slice().get(number)?;
        if name.as_slice() == key {
            Some(number / self.block)
        } else {
            None
        }
    }

    // The part of a key, without a guess.
    #[cold]
    fn search(&self, key: &[u8]) -> usize
        ensures { result ≡ part_of self.now key.now }
    {
        match self.names.get_index_of(key) {
            Some(number) => number / self.block,
            None => REST,
        }
    }
}

// The `KEYS` clause of a name and others behind it, and a line feed.
fn keys_clause(alloc: Global, first: &[u8], rest: &[Vec<u8>]) -> Result<Vec<u8>, AllocError>
    ensures { IfOk result (λ text. text.items ≡ keys_text (first.now ∷ map (λ v. v.items) rest.now)) }
{
    let mut text = Vec::new(alloc);
    text.extend_from_slice(b"KEYS ")?;
    text.extend_from_slice(first)?;
    for name in rest {
        text.extend_from_slice(b", ")?;
        text.extend_from_slice(name)?;
    }
    text.extend_from_slice(b";\n")?;
    Ok(text)
}

// The keys of a text with a name a line.
fn names_of(alloc: Global, text: &[u8]) -> Result<IndexSet<Vec<u8>>, SharesRefusal>
    ensures read { IfOk result (λ names. keys_of_text text.now ≡ Ok (map (λ v. v.items) names.keys)) }
    ensures refused { IfErr result (λ refusal. (refusal ≡ SharesRefusal.Memory) ⊎ (keys_of_text text.now ≡ Err refusal)) }
{
    let mut names = IndexSet::new(alloc);
    let mut rest = text;
    let mut line = 0u64;
    while !rest.is_empty() {
        line += 1;
        let (name, next) = split_line(rest);
        add_name(alloc, &mut names, name, line)?;
        rest = next;
    }
    Ok(names)
}

// Why the keys of a text are dealt to no parts, where it isn't known to how many.
fn refusal_of(alloc: Global, text: &[u8]) -> SharesRefusal
    ensures { (result ≡ SharesRefusal.Memory) ⊎ (refusal_of (keys_of_text text.now) ≡ result) }
{
    match names_of(alloc, text) {
        Ok(names) if names.is_empty() => SharesRefusal::NoNames,
        Ok(_) => SharesRefusal::BadNumber,
        Err(refusal) => refusal,
    }
}

// Adds the name of a line to those of the lines before.
fn add_name(
    alloc: Global,
    names: &mut IndexSet<Vec<u8>>,
    name: &[u8],
    line: u64,
) -> Result<(), SharesRefusal>
    requires { line ≡ length names.old.keys + 1 }
    ensures added { (lines : List (List ℕ)) →
        OnOk result (keys_behind (map (λ v. v.items) names.old.keys) (name.now ∷ lines) ≡ keys_behind (map (λ v. v.items) names.new.keys) lines) }
    ensures count { OnOk result (length names.new.keys ≡ line) }
    ensures refused { (lines : List (List ℕ)) →
        IfErr result (λ refusal. (refusal ≡ SharesRefusal.Memory) ⊎ (keys_behind (map (λ v. v.items) names.old.keys) (name.now ∷ lines) ≡ Err refusal)) }
{
    if Name::new(name).is_none() {
        return Err(SharesRefusal::BadName(line));
    }
    match names.insert(name.to_vec(alloc)?) {
        Ok(true) => Ok(()),
        Ok(false) => Err(SharesRefusal::DuplicateName(line)),
        Err(_) => Err(SharesRefusal::Memory),
    }
}

// The first line of a text that isn't empty, and what is behind its end.
fn split_line(text: &[u8]) -> (&[u8], &[u8])
    requires { 0 < length text.now }
    ensures line { lines_of text.now ≡ result.0.now ∷ lines_of result.1.now }
    ensures shorter { length result.1.now < length text.now }
{
    match memchr(b'\n', text) {
        Some(end) => (&text[..end], &text[end + 1..]),
        None => (text, &[]),
    }
}

// How many keys a part has, of so many keys and parts.
fn keys_a_part(keys: usize, parts: usize) -> Result<usize, SharesRefusal>
    ensures block { IfOk result (λ block. keys_a_part keys parts ≡ Ok block) }
    ensures some { IfOk result (λ block. 0 < block) }
    ensures most { IfOk result (λ block. block ≤ MAX_NAMES) }
    ensures filled { IfOk result (λ block. div_ceil keys block ≡ parts) }
    ensures refused { IfErr result (λ refusal. keys_a_part keys parts ≡ Err refusal) }
{
    if keys == 0 {
        return Err(SharesRefusal::NoNames);
    }
    let least = keys.div_ceil(MAX_NAMES);
    if parts < least {
        return Err(SharesRefusal::TooFewParts(least as u64));
    }
    let block = keys.div_ceil(parts);
    let filled = keys.div_ceil(block);
    if filled < parts {
        return Err(SharesRefusal::TooManyParts(filled as u64));
    }
    Ok(block)
}
