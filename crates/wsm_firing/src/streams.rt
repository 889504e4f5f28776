//! The streams of the relation.

ghost use Rattle.std.specs.Prelude.{◌≡◌, ◌≤◌, [], Some, length, option_map, IfOk, IfSome};
ghost use Rattle.wsm_record.specs.declared.limits.TheConstants.{MAX_COLUMNS};
ghost use Rattle.wsm_semantics.specs.Summaries.{standing_row};
ghost use Rattle.wsm_panes.specs.Held.{IsHeldAt};
ghost use Rattle.wsm_firing.specs.Streams.{Advances, AreAlike, CanAdvance, CanGain, CanLose, CanLoseHeld, Gains, HasGained, HasLost, HasLostHeld, HasRoomFor, Loses, WritesAt};
ghost use Rattle.wsm_firing.specs.StreamsKept.{numbers_after, room_of};

use crate::turn_rows::TurnRows;
use std::alloc::{AllocError, Global};
use std::marker::Model;
use wsm_panes::{HeldPanes, PaneView, Spot};
use wsm_record::limits::{MAX_COLUMNS, MAX_PANES};
use wsm_record::{Cell, Columns, Form};
use wsm_relation::{Changes, Side};

/// The streams of the relation of the rows that stand for the panes that are held, which is told each
/// row that it gains and each that it loses: what it gained since the last instant, what it lost, or
/// its rows (Arasu et al. 2006). Where rows are those of panes nothing is kept.
#[derive(Drop)]
pub struct Streams {
    room: usize,
    kept: Kept,
}

// What is kept of the relation.
#[derive(Drop)]
enum Kept {
    // Where rows are those of panes.
    Nothing,
    // What changed since the last instant, of which one side is written, or since there was no row,
    // where the rows that stand are.
    Changed(Side, Changes),
}

impl Model for Streams {
    ghost use Rattle.wsm_firing.specs.Streams.{Told};

    ghost Value = { Told };

    ghost use Rattle.wsm_firing.specs.StreamsKept.{IsReserved, form_kept, numbers_kept};

    ghost view = { λ a. record { form = form_kept a.kept; room = a.room; numbers = numbers_kept a.kept } };

    ghost invariant = { λ a. IsReserved a.room a.kept };
}

impl Streams {
    /// No row yet, with room for so many where rows are those of a stream. No later call takes memory.
    ///
    /// # Errors
    ///
    /// Where there is no memory for the room.
    pub fn open(alloc: Global, form: Form, room: usize) -> Result<Streams, AllocError>
        requires { room ≤ MAX_PANES }
        ensures { IfOk result (λ s. s ≡ record { form = form; room = room; numbers = [] }) }
    {
        let kept = match form {
            Form::Panes => Kept::Nothing,
            Form::Istream => changed(alloc, Side::Gained, room)?,
            Form::Dstream => changed(alloc, Side::Lost, room)?,
            Form::Rstream => changed(alloc, Side::Standing, room)?,
        };
        Ok(Streams { room, kept })
    }

    /// The form of the rows.
    pub(crate) fn form(&self) -> Form
        ensures { result ≡ self.now.form }
    {
        match &self.kept {
            Kept::Nothing => Form::Panes,
            Kept::Changed(Side::Gained, _) => Form::Istream,
            Kept::Changed(Side::Lost, _) => Form::Dstream,
            Kept::Changed(Side::Standing, _) => Form::Rstream,
        }
    }

    /// The relation loses the row that stands for a pane, if one does.
    #[inline(always)]
    pub(crate) fn lose(&mut self, pane: &PaneView<'_>)
        requires { CanLose self.old (standing_row pane.now.stands) }
        ensures { HasLost self.old self.new (standing_row pane.now.stands) }
    {
        if let Kept::Nothing = &self.kept {
            return;
        }
        self.lose_standing(pane);
    }

    /// The same of a pane that is held, which is read only where rows are those of the relation.
    pub(crate) fn lose_held(&mut self, held: &HeldPanes, spot: Spot)
        requires held { IsHeldAt held.now spot }
        requires can { CanLoseHeld held.now spot self.old }
        ensures { HasLostHeld held.now spot self.old self.new }
    {
        if let Kept::Nothing = &self.kept {
            return;
        }
        if held.pane(spot).has_fired() {
            self.lose_at(held, spot.rebuilt());
        }
    }

    // The same, where rows are those of the relation.
    #[inline(never)]
    fn lose_at(&mut self, held: &HeldPanes, spot: Spot)
        requires held { IsHeldAt held.now spot }
        requires can { CanLoseHeld held.now spot self.old }
        ensures { HasLostHeld held.now spot self.old self.new }
    {
        self.lose_standing(&held.pane(spot));
    }

    // The relation loses the row that stands for a pane, if one does, with room for it.
    #[inline(always)]
    fn lose_standing(&mut self, pane: &PaneView<'_>)
        requires { CanLose self.old (standing_row pane.now.stands) }
        ensures { HasLost self.old self.new (standing_row pane.now.stands) }
    {
        let mut row = Columns::new();
        if pane.read_row(&mut row) {
            self.lose_row(&row);
        }
    }

    /// The relation gains a row, if there is one.
    pub(crate) fn gain(&mut self, row: Option<&[Cell]>)
        requires few { IfSome row (λ cells. length cells.now ≤ MAX_COLUMNS) }
        requires can { CanGain self.old (option_map (λ cells. cells.now) row) }
        ensures { HasGained self.old self.new (option_map (λ cells. cells.now) row.entry) }
    {
        if let Kept::Nothing = &self.kept {
            return;
        }
        self.gain_standing(row);
    }

    // The same, where rows are those of the relation.
    #[inline(never)]
    fn gain_standing(&mut self, row: Option<&[Cell]>)
        requires few { IfSome row (λ cells. length cells.now ≤ MAX_COLUMNS) }
        requires can { CanGain self.old (option_map (λ cells. cells.now) row) }
        ensures { HasGained self.old self.new (option_map (λ cells. cells.now) row.entry) }
    {
        if let Some(cells) = row {
            self.gain_row(&Columns::of(cells));
        }
    }

    fn lose_row(&mut self, row: &Columns)
        requires { CanLose self.old (Some row.now) }
        ensures told { Loses self.old self.new (Some row.now) }
        ensures alike { AreAlike self.old self.new }
    {
        match &mut self.kept {
            Kept::Nothing => {}
            Kept::Changed(_, changes) => changes.minus(row),
        }
    }

    fn gain_row(&mut self, row: &Columns)
        requires { CanGain self.old (Some row.now) }
        ensures told { Gains self.old self.new (Some row.now) }
        ensures alike { AreAlike self.old self.new }
    {
        match &mut self.kept {
            Kept::Nothing => {}
            Kept::Changed(_, changes) => changes.plus(row),
        }
    }

    /// The next instant, at a watermark: appends the rows of the stream to those of the turn, and goes
    /// on from the relation that stands now. Nothing changes where rows are those of panes.
    pub fn advance(&mut self, mark: i64, rows: &mut TurnRows)
        requires told { CanAdvance self.old }
        requires rows { HasRoomFor self.old.form self.old.room (length rows.old.written) rows.old.room }
        ensures told { Advances self.old self.new }
        ensures alike { AreAlike self.old self.new }
        ensures rows { WritesAt self.old mark rows.old.written rows.new.written }
        ensures room { rows.new.room ≡ rows.old.room }
    {
        match &mut self.kept {
            Kept::Nothing => {}
            Kept::Changed(side, changes) => {
                rows.write_changes(changes, *side, mark);
                go_on(*side, changes);
            }
        }
    }
}

// No changes yet.
fn changed(alloc: Global, side: Side, room: usize) -> Result<Kept, AllocError>
    requires { room ≤ MAX_PANES }
    ensures { IfOk result (λ k. k ≡ Kept.Changed side (record { numbers = []; room = room_of side room; columns = MAX_COLUMNS })) }
{
    let changes = Changes::open(alloc, places_for(side, room), MAX_COLUMNS)?;
    Ok(Kept::Changed(side, changes))
}

// For how many rows a side needs room: those of the last instant and those now, or these alone.
fn places_for(side: Side, room: usize) -> usize
    requires { room ≤ MAX_PANES }
    ensures { result ≡ room_of side room }
{
    match side {
        Side::Gained | Side::Lost => 2 * room,
        Side::Standing => room,
    }
}

// Goes on from what is written: where a side of what changed is, from no changes.
fn go_on(side: Side, changes: &mut Changes)
    ensures { changes.new ≡ record changes.old { numbers = numbers_after side changes.old.numbers } }
{
    match side {
        Side::Gained | Side::Lost => changes.clear(),
        Side::Standing => {}
    }
}
