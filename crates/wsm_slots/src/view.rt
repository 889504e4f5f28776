//! Panes as they are read.

ghost use Rattle.std.specs.Prelude.{◌≡◌, [], None, Some, if◌then◌else◌, option_map};
ghost use Rattle.wsm_semantics.specs.Summaries as kept;
ghost use Rattle.wsm_slots.specs.Panes.{has_fired};
ghost use Rattle.wsm_slots.specs.View.{IsFew, row_seen, window_stood};

use crate::head::Stands;
use crate::row_words::RowWords;
use crate::spot::rebuilt_window;
use std::marker::Model;
use wsm_record::{Columns, Value};
use wsm_windows::Window;

/// Where the cells of a row lie.
#[derive(Clone, Copy)]
pub(crate) enum RowView<'a> {
    /// In columns of their own.
    Whole(&'a Columns),
    /// As words, among those of other rows.
    Part(RowWords<'a>),
}

/// A pane that is held, as it is read where it lies. A clause sees how many records it has, how many
/// of them no firing showed yet, what those that the next firing is computed over are folded to, and
/// what stands.
#[derive(Drop)]
pub struct PaneView<'a> {
    pub(crate) count: u64,
    pub(crate) unshown: u64,
    pub(crate) is_folded: bool,
    pub(crate) stands: Stands,
    // The window of the firing that stands, where one does and windows are kept.
    pub(crate) stood: Option<Window>,
    // What the records are folded to, where there are any.
    pub(crate) folds: &'a [Value],
    // The row that stands, where one does.
    pub(crate) row: RowView<'a>,
}

impl<'a> Model for PaneView<'a> {
    ghost use Rattle.std.specs.Prelude.{List};
    ghost use Rattle.wsm_record.specs.declared.event.Value.{Value as OneValue};
    ghost use Rattle.wsm_semantics.specs.Summaries.{Pane as AnyPane};
    ghost use Rattle.wsm_slots.specs.Layout.{folded_by, standing_by};
    ghost use Rattle.wsm_slots.specs.View.{IsFew, row_seen};

    ghost Value = { AnyPane (List OneValue) };

    ghost view = { λ a. record {
      count = a.count;
      unshown = a.unshown;
      folded = folded_by a.is_folded a.folds.now;
      stands = standing_by a.stands a.stood (row_seen a.row);
    } };

    ghost invariant = { λ a. IsFew a.row };
}

impl<'a> PaneView<'a> {
    /// How many records it has.
    pub fn count(&self) -> u64
        ensures { result ≡ self.now.count }
    {
        self.count
    }

    /// How many of its records no firing showed yet.
    pub fn unshown(&self) -> u64
        ensures { result ≡ self.now.unshown }
    {
        self.unshown
    }

    /// What the records that the next firing is computed over are folded to, where there are any.
    pub fn folded(&self) -> Option<&'a [Value]>
        ensures { option_map (λ values. values.now) result ≡ self.now.folded }
    {
        if self.is_folded {
            Some(self.folds)
        } else {
            None
        }
    }

    /// Whether it fired, or a part of it did before it was joined.
    pub fn has_fired(&self) -> bool
        ensures { result ≡ has_fired self.now.stands }
    {
        match self.stands {
            Stands::Unfired => false,
            Stands::NoRow | Stands::FiredRow | Stands::Joined => true,
        }
    }

    /// The window of the firing that stands for it, as it was then, where windows are kept.
    pub fn window(&self) -> Option<Window>
        ensures { result ≡ window_stood self.now.stands }
    {
        match self.stands {
            Stands::FiredRow | Stands::NoRow => self.stood,
            Stands::Unfired | Stands::Joined => None,
        }
    }

    /// The row that stands for it.
    pub fn standing_row(&self) -> Option<Columns>
        ensures { result ≡ kept.standing_row self.now.stands }
    {
        match self.stands {
            Stands::FiredRow => Some(row_columns(&self.row)),
            Stands::Unfired | Stands::NoRow | Stands::Joined => None,
        }
    }

    /// Has columns of the row that stands for it where there are none, and tells whether one does.
    pub fn read_row(&self, columns: &mut Columns) -> bool
        requires { columns.old ≡ [] }
        ensures { (if result then Some columns.new else None) ≡ kept.standing_row self.now.stands }
    {
        match self.stands {
            Stands::FiredRow => {
                fill_row(&self.row, columns);
                true
            }
            Stands::Unfired | Stands::NoRow | Stands::Joined => false,
        }
    }

    /// The same view, put together anew from its fields. A call hands its answer over in memory, where all
    /// that is merged with it would lie too.
    pub fn rebuilt(self) -> PaneView<'a>
        ensures { result ≡ self.entry }
    {
        PaneView {
            count: self.count,
            unshown: self.unshown,
            is_folded: self.is_folded,
            stands: self.stands,
            stood: rebuilt_stood(self.stood),
            folds: self.folds,
            row: self.row.rebuilt(),
        }
    }
}

impl<'a> RowView<'a> {
    // The same cells of a row, put together anew.
    fn rebuilt(self) -> RowView<'a>
        ensures { result ≡ self.entry }
    {
        match self {
            RowView::Whole(columns) => RowView::Whole(columns),
            RowView::Part(words) => RowView::Part(RowWords {
                kinds: words.kinds,
                words: words.words,
            }),
        }
    }
}

// The same window of a firing, put together anew, if there is one.
fn rebuilt_stood(stood: Option<Window>) -> Option<Window>
    ensures { result ≡ stood }
{
    match stood {
        Some(window) => Some(rebuilt_window(window)),
        None => None,
    }
}

/// The columns of a row.
pub(crate) fn row_columns(row: &RowView<'_>) -> Columns
    requires { IsFew row.now }
    ensures { result ≡ row_seen row.now }
{
    let mut columns = Columns::new();
    fill_row(row, &mut columns);
    columns
}

// Has columns of a row where there are none.
fn fill_row(row: &RowView<'_>, columns: &mut Columns)
    requires few { IsFew row.now }
    requires empty { columns.old ≡ [] }
    ensures { columns.new ≡ row_seen row.now }
{
    match row {
        RowView::Whole(whole) => *columns = **whole,
        RowView::Part(words) => words.fill(columns),
    }
}
