//! The last watermark of each source.

ghost use Rattle.std.specs.Prelude.{◌≡◌, ◌≤◌, ◌<◌, ◌∷◌, length, replicate, slice_set};
ghost use Rattle.wsm_admission.specs.Clock.{least, mark_at};

use std::marker::Model;
use wsm_record::limits::MAX_SOURCES;

/// The last watermark of each source, in event time, held inline. A clause sees their list.
#[derive(Debug, Drop)]
pub struct Marks {
    marks: [i64; MAX_SOURCES],
    count: u8,
}

impl Model for Marks {
    ghost use Rattle.std.specs.Prelude.{◌≡◌, ◌≤◌, ℤ, List, length, take};
    ghost use Rattle.wsm_record.specs.declared.limits.TheConstants.{MAX_SOURCES};

    ghost Value = { List ℤ };

    ghost view = { λ a. take a.count a.marks };

    ghost invariant = { λ a. (1 ≤ a.count) × (a.count ≤ MAX_SOURCES) };
}

impl Marks {
    /// So many sources with one watermark.
    pub fn new(mark: i64, count: u8) -> Marks
        requires some { 1 ≤ count }
        requires few { count ≤ MAX_SOURCES }
        ensures { result ≡ replicate count mark }
    {
        Marks {
            marks: [mark; MAX_SOURCES],
            count,
        }
    }

    /// The watermark of a source, if it is one.
    pub fn of(&self, source: Option<u16>) -> Option<i64>
        ensures { result ≡ mark_at self.now source }
    {
        self.marks[..usize::from(self.count)]
            .get(usize::from(source?))
            .copied()
    }

    /// Sets the watermark of a source.
    pub fn set(&mut self, source: u16, mark: i64)
        requires { source < length self.old }
        ensures { self.new ≡ slice_set self.old source mark }
    {
        self.marks[usize::from(source)] = mark;
    }

    /// The least of the watermarks.
    pub fn least(&self) -> i64
        ensures { result ≡ least self.now }
    {
        least_of(self.marks[0], &self.marks[1..usize::from(self.count)])
    }
}

fn least_of(first: i64, others: &[i64]) -> i64
    ensures { result ≡ least (first ∷ others.now) }
{
    let mut least = first;
    for mark in others {
        least = least.min(*mark);
    }
    least
}
