//! Rows that wait for a cut.

ghost use Rattle.std.specs.Prelude.{◌≡◌, ℕ, List, [], ◌∷◌, ◌++◌, length, map, IfOk, OnOk};
ghost use Rattle.std.specs.List.{All, count_by};
ghost use Rattle.wsm_semantics.specs.Needed.{is_one_of};
ghost use Rattle.wsm_keep.specs.Holds as holds;
ghost use Rattle.wsm_keep.specs.Holds.{selected_in};
ghost use Rattle.wsm_keep.specs.Staying as spec;
ghost use Rattle.wsm_keep.specs.Staying.{done_by, row_of};
ghost use Rattle.wsm_keep.specs.Items.{Lies, MayStand, behind, joined, queue_of, times_of};

use crate::firsts::Firsts;
use crate::what::What;
use std::alloc::{AllocError, Global};
use std::marker::Model;

// What a row does, and where its text stands.
#[derive(Clone, Copy)]
pub(crate) struct Item {
    pub(crate) what: What,
    pub(crate) start: usize,
    pub(crate) end: usize,
}

/// Rows that wait for a cut, the oldest first. A clause sees what each does and its text, the newest first.
#[derive(Drop)]
pub struct Queue {
    // The texts of all rows, behind one another.
    texts: Vec<u8>,
    items: Vec<Item>,
}

impl Model for Queue {
    ghost use Rattle.std.specs.Prelude.{List};
    ghost use Rattle.std.specs.List.{All};
    ghost use Rattle.wsm_keep.specs.Holds.{Queued};
    ghost use Rattle.wsm_keep.specs.Items.{Lies, queue_of};

    ghost Value = { List Queued };

    ghost view = { λ q. queue_of q.texts.items q.items.items };

    ghost invariant = { λ q. All (Lies q.texts.items) q.items.items };
}

impl Queue {
    /// A queue of no rows.
    pub fn new(alloc: Global) -> Queue
        ensures { result ≡ [] }
    {
        Queue {
            texts: Vec::new(alloc),
            items: Vec::new(alloc),
        }
    }

    /// How many rows there are.
    pub fn len(&self) -> usize
        ensures { result ≡ length self.now }
    {
        self.items.len()
    }

    /// How many rows select a record.
    pub fn selected(&self) -> usize
        ensures { result ≡ selected_in self.now }
    {
        count_selected(&self.items)
    }

    // What the rows do, the oldest first.
    pub(crate) fn items(&self) -> &[Item]
        ensures { (texts : List ℕ) × (queue_of texts result.now ≡ self.now) }
    {
        self.items.as_slice()
    }

    /// What gives its memory.
    pub fn allocator(&self) -> Global {
        *self.items.allocator()
    }

    /// Adds rows that come behind.
    pub fn append(&mut self, newer: &Queue) -> Result<(), AllocError>
        ensures { OnOk result (self.new ≡ newer.now ++ self.old) }
    {
        let front = self.texts.len();
        self.texts.extend_from_slice(&newer.texts)?;
        add_behind(&mut self.items, front, &newer.items)
    }

    // Adds a row of each item, with its text among these.
    fn push_all(&mut self, texts: &[u8], items: &[Item]) -> Result<(), AllocError>
        requires { All (Lies texts.now) items.now }
        ensures { OnOk result (self.new ≡ queue_of texts.now items.now ++ self.old) }
    {
        for item in items {
            self.push(item.what, &texts[item.start..item.end])?;
        }
        Ok(())
    }

    /// Adds the texts of all rows, the oldest first, behind a text.
    pub fn add_texts(&self, text: &mut Vec<u8>) -> Result<(), AllocError>
        ensures { OnOk result (text.new.items ≡ text.old.items ++ joined (map row_of self.now)) }
    {
        add_all(&self.texts, &self.items, text)
    }

    /// Adds a row.
    pub fn push(&mut self, what: What, text: &[u8]) -> Result<(), AllocError>
        ensures { OnOk result (self.new ≡ (what, text.now) ∷ self.old) }
    {
        let start = self.texts.len();
        self.texts.extend_from_slice(text)?;
        let end = self.texts.len();
        self.items.push(Item { what, start, end })?;
        Ok(())
    }

    /// The rows that stay, where records do from these times on.
    pub fn thinned(self, firsts: &Firsts) -> Result<Queue, AllocError>
        ensures { IfOk result (λ q. q ≡ spec.thinned done_by (times_of firsts.now) [] self) }
    {
        let Queue { texts, mut items } = self;
        let alloc = *items.allocator();
        let mut kept = Vec::new(alloc);
        let mut told = Vec::new(alloc);
        while let Some(item) = items.pop() {
            if stays(firsts, &told, item.what) {
                tell(&mut told, item.what)?;
                kept.push(item)?;
            }
        }
        kept.reverse();
        Queue { texts, items: kept }.packed()
    }

    // The same rows, and no other texts where these have less than half of the bytes.
    fn packed(self) -> Result<Queue, AllocError>
        ensures { IfOk result (λ q. q ≡ self) }
    {
        if self.texts.len() / 2 <= bytes_of(&self.items) {
            return Ok(self);
        }
        let mut queue = Queue::new(self.allocator());
        queue.push_all(&self.texts, &self.items)?;
        Ok(queue)
    }
}

// How many items select a record.
fn count_selected(items: &[Item]) -> usize
    ensures { result ≡ count_by (λ i. holds.is_selected i.what) items.now }
{
    items.iter().filter(|item| is_selected(item.what)).count()
}

// Whether a row selects a record.
fn is_selected(what: What) -> bool
    ensures { result ≡ holds.is_selected what }
{
    matches!(what, What::Selected(_, _))
}

// How many bytes the texts of items have.
fn bytes_of(items: &[Item]) -> usize {
    let mut bytes = 0usize;
    for item in items {
        bytes = bytes.saturating_add(item.end.saturating_sub(item.start));
    }
    bytes
}

// Adds items whose texts stand behind so many bytes more.
fn add_behind(items: &mut Vec<Item>, front: usize, newer: &[Item]) -> Result<(), AllocError>
    requires { All (MayStand front) newer.now }
    ensures items { OnOk result (items.new.items ≡ items.old.items ++ map (behind front) newer.now) }
    ensures lie { (texts : List ℕ) → All (Lies texts) items.old.items → All (λ i. Lies texts (behind front i)) newer.now → All (Lies texts) items.new.items }
{
    for item in newer {
        items.push(item_behind(*item, front))?;
    }
    Ok(())
}

// An item whose text stands behind so many bytes more.
fn item_behind(item: Item, front: usize) -> Item
    requires { MayStand front item }
    ensures { result ≡ behind front item }
{
    Item {
        what: item.what,
        start: front + item.start,
        end: front + item.end,
    }
}

// Adds the text of each item, which stands among these, behind a text.
fn add_all(texts: &[u8], items: &[Item], text: &mut Vec<u8>) -> Result<(), AllocError>
    requires { All (Lies texts.now) items.now }
    ensures { OnOk result (text.new.items ≡ text.old.items ++ joined (map row_of (queue_of texts.now items.now))) }
{
    for item in items {
        text.extend_from_slice(&texts[item.start..item.end])?;
    }
    Ok(())
}

// Whether a row stays, in front of watermarks of some sources.
fn stays(firsts: &Firsts, told: &[u16], what: What) -> bool
    ensures { result ≡ spec.stays (times_of firsts.now) told.now what }
{
    match what {
        What::Selected(key, time) => firsts.of(key) <= time,
        What::Accepted(source) => !is_told(told, source),
        What::Idle => false,
    }
}

fn is_told(told: &[u16], source: u16) -> bool
    ensures { result ≡ is_one_of told.now source }
{
    told.iter().any(|one| *one == source)
}

// Of which sources no watermark stays behind a row that does.
fn tell(told: &mut Vec<u16>, what: What) -> Result<(), AllocError>
    ensures { OnOk result (told.new.items ≡ spec.told_after told.old.items what) }
{
    match what {
        What::Selected(_, _) => told.clear(),
        What::Accepted(source) => told.insert(0, source)?,
        What::Idle => {}
    }
    Ok(())
}
