//! The panes that are held.

ghost use Rattle.std.specs.Prelude.{◌≡◌, ◌*◌, ◌<◌, ◌≤◌, ◌≤ℤ◌, ℤ, pos, [], length, IfOk, IfSome, Some, int_lt, option_map, slice_get};
ghost use Rattle.std.specs.Box.{boxed_slice_items};
ghost use Rattle.std.specs.FinMap as map;
ghost use Rattle.std.specs.FinMap.Entries.{find, where_key};
ghost use Rattle.wsm_windows.specs.Windows.{IsShape, IsTime, greatest_span};
ghost use Rattle.wsm_windows.specs.declared.window.Shape.TheVariants.{Session};
ghost use Rattle.wsm_semantics.specs.Replay.{datum};
ghost use Rattle.wsm_semantics.specs.Summaries.{linked};
ghost use Rattle.wsm_record.specs.Modes.{retracts};
ghost use Rattle.wsm_windows.specs.Places.{place_cmp};
ghost use Rattle.wsm_list.specs.Recorded.{IsAsRoomy};
ghost use Rattle.wsm_panes.specs.Held.{CanEnter, CanOpen, IsHeldAt, IsKept, IsSpot, are_sessions, entries_of, joined_panes, joins_sessions, session_entered, windows_entered, with_entered, FiresAmong};
ghost use Rattle.wsm_panes.specs.Entered.{IsToldAlone, unshown_at};
ghost use Rattle.wsm_panes.specs.HeldState.{AreTables, panes_in, widths_in};
ghost use Rattle.wsm_ring.specs.Ring.{IsRing};
ghost use Rattle.wsm_panes.specs.OfKeys.{AreOfKeys, AreDropped, StayOfKeys};
ghost use Rattle.wsm_slots.specs.Place.{is_kept};
ghost use Rattle.wsm_slots.specs.Walk.{first_past, following, place_due, place_found};

use std::alloc::{AllocError, Global};
use std::boxed::BoxedSlice;
use std::marker::Model;
use wsm_list::{ListTable, enter_session, linked_pair};
use wsm_record::limits::{MAX_ACCUMULATORS, MAX_COLUMNS, MAX_PANES};
use wsm_record::{Cell, Kind, Mode, Value};
use wsm_ring::{Ring, RingTable, enter_windows};
use wsm_sessions::Sessions;
use wsm_slots::{PaneTable, PaneView, Spot, Widths, rebuilt_place, rebuilt_window};
use wsm_windows::{Place, Shape, Window, live_past};

/// What putting a record in came to.
#[derive(Clone, Copy, Debug, PartialEq, Eq)]
pub struct Entered {
    /// How many windows it was put into.
    pub windows: u64,
    /// Whether it joined two sessions.
    pub joined: bool,
    /// The window of its session, where windows are sessions.
    pub session: Option<Window>,
    /// The one window that it was put into, where that is at hand: a session always is.
    pub alone: Option<Window>,
}

/// The panes that are held, for each key and window, with what is kept of their records. In sessions
/// a record joins the panes that it is linked to (Akidau et al. 2015, "window merging").
#[derive(Drop)]
pub struct HeldPanes {
    keys: usize,
    shape: Shape,
    live: usize,
    tables: Tables,
}

// What panes are held in, by the shape of their windows.
#[derive(Drop)]
enum Tables {
    // A list of those of sessions, and the sessions of each key.
    Sessions(ListTable, BoxedSlice<Sessions>),
    // A ring of those of windows on a grid.
    Grid(RingTable),
}

impl Model for HeldPanes {
    ghost use Rattle.std.specs.Coded.{codes};
    ghost use Rattle.wsm_panes.specs.Held.{Held, coded_held};
    ghost use Rattle.wsm_panes.specs.HeldState.{panes_in, widths_in};
    ghost use Rattle.wsm_slots.specs.contracts.pane.Pane as one_pane;
    ghost use Rattle.wsm_windows.specs.contracts.window.Shape as one_shape;

    ghost Value = { Held };

    ghost coded = { coded_held (Prim.hlevel (codes, one_shape.the_row.coded)) (Prim.hlevel (codes, one_pane.the_row.coded)) };

    ghost view = { λ a. record { keys = a.keys; shape = a.shape; live = a.live; widths = widths_in a.tables; panes = panes_in a.tables } };

    ghost use Rattle.wsm_panes.specs.HeldState.{IsSound};

    ghost invariant = { λ a. IsSound a };
}

impl HeldPanes {
    /// No pane yet, with room for so many live windows of each key, and for so much of each pane. No
    /// later call takes memory.
    ///
    /// # Errors
    ///
    /// Where there is no memory for the room.
    pub fn open(
        alloc: Global,
        keys: usize,
        shape: Shape,
        live: usize,
        widths: Widths,
    ) -> Result<HeldPanes, AllocError>
        requires { CanOpen shape keys live widths }
        ensures { IfOk result (λ h. h ≡ record { keys = keys; shape = shape; live = live; widths = widths; panes = map.empty }) }
    {
        Ok(HeldPanes {
            keys,
            shape,
            live,
            tables: open_tables(alloc, keys, shape, live, widths)?,
        })
    }

    /// Puts a record into the pane of each of its windows that are live at a mark. In sessions that is
    /// one pane, which joins those that the record is linked to.
    pub fn enter(
        &mut self,
        kinds: &[Kind],
        key: u16,
        time: i64,
        values: &[Value],
        lateness: i64,
        mark: i64,
    ) -> Entered
        requires { CanEnter self.old kinds.now key time values.now lateness mark }
        ensures panes { entries_of self.new ≡ with_entered kinds.now key time values.now lateness mark self.old }
        ensures keeps { IsKept self.old self.new }
        ensures windows { result.windows ≡ windows_entered self.old.shape time lateness mark }
        ensures joined { result.joined ≡ joins_sessions self.old.shape (datum 0 (pos 0) key time []) (entries_of self.old) }
        ensures session { result.session ≡ session_entered self.old.shape (datum 0 (pos 0) key time []) (entries_of self.old) }
        ensures alone { IsToldAlone self.old.shape time lateness mark result.session result.alone }
    {
        match &mut self.tables {
            Tables::Sessions(list, sessions) => {
                let sessions = &mut sessions[key as usize];
                let (session, joined) = enter_session(list, sessions, kinds, key, time, values);
                let session = Some(rebuilt_window(session));
                Entered {
                    windows: 1,
                    joined,
                    session,
                    alone: session,
                }
            }
            Tables::Grid(ring) => {
                let past = live_past(time, lateness, mark);
                let (windows, alone) = enter_windows(ring, kinds, key, time, values, past);
                Entered {
                    windows,
                    joined: false,
                    session: None,
                    alone,
                }
            }
        }
    }

    /// Whether windows are sessions.
    pub fn has_sessions(&self) -> bool
        ensures sessions { result ≡ are_sessions self.now.shape }
        ensures shape { IsShape self.now.shape }
    {
        match &self.tables {
            Tables::Sessions(..) => true,
            Tables::Grid(_) => false,
        }
    }

    /// The panes of the two sessions that a record of a key and a time joins, where windows are sessions
    /// and it joins two.
    #[inline(always)]
    pub fn joined(&self, key: u16, time: i64) -> Option<(PaneView<'_>, PaneView<'_>)>
        requires declared { key < self.now.keys }
        requires timely { IsTime time }
        ensures pair { result ≡ joined_panes self.now.shape (datum 0 (pos 0) key time []) (entries_of self.now) }
        ensures few { (gap : ℤ) → self.now.shape ≡ Session gap → length (linked gap (datum 0 (pos 0) key time []) (entries_of self.now)) ≤ 2 }
        ensures shape { IsShape self.now.shape }
    {
        match &self.tables {
            Tables::Sessions(list, sessions) => {
                linked_pair(list, &sessions[key as usize], key, time)
            }
            Tables::Grid(_) => None,
        }
    }

    /// How many panes there are.
    pub fn len(&self) -> usize
        ensures { result ≡ length (entries_of self.now) }
    {
        match &self.tables {
            Tables::Sessions(list, _) => list.len(),
            Tables::Grid(ring) => ring.len(),
        }
    }

    /// Where the pane at a place is, if one is there.
    #[inline(always)]
    pub fn find(&self, place: Place) -> Option<Spot>
        ensures place { place_found result ≡ option_map (λ _. place) (find place_cmp place (entries_of self.now)) }
        ensures spot { IfSome result (IsSpot self.now) }
    {
        match &self.tables {
            Tables::Sessions(list, _) => Spot::rebuilt_found(list.find(rebuilt_place(place))),
            Tables::Grid(ring) => ring.find(place),
        }
    }

    /// How many records of the pane at a place no firing showed yet, if one is there. Where it is the pane that the last
    /// record of its key went to, nothing is searched.
    #[inline(always)]
    pub fn unshown(&self, place: Place) -> Option<u64>
        ensures { result ≡ unshown_at place (entries_of self.now) }
    {
        match &self.tables {
            Tables::Sessions(list, sessions) => {
                list.unshown(noted(sessions, place.key), rebuilt_place(place))
            }
            Tables::Grid(ring) => ring.unshown(place),
        }
    }

    /// Where the first pane is in the order of the places, if its window ends by a limit, which is in
    /// event time.
    pub fn first_due(&self, limit: i64) -> Option<Spot>
        ensures place { place_found result ≡ place_due limit (slice_get (entries_of self.now) 0) }
        ensures spot { IfSome result (IsSpot self.now) }
    {
        match &self.tables {
            Tables::Sessions(list, _) => list.first_due(limit),
            Tables::Grid(ring) => ring.first_due(limit),
        }
    }

    /// Where the first pane is, in the order of the places, of those whose windows end past a time, if
    /// its window ends by a limit.
    pub fn first_due_after(&self, after: i64, limit: i64) -> Option<Spot>
        ensures place { place_found result ≡ place_due limit (first_past after (entries_of self.now)) }
        ensures spot { IfSome result (IsSpot self.now) }
    {
        match &self.tables {
            Tables::Sessions(list, _) => list.first_due_after(after, limit),
            Tables::Grid(ring) => ring.first_due_after(after, limit),
        }
    }

    /// Where the pane behind one is, in the order of the places, if its window ends by a limit.
    #[inline(always)]
    pub fn next_due(&self, spot: Spot, limit: i64) -> Option<Spot>
        requires { IsHeldAt self.now spot }
        ensures place { place_found result ≡ place_due limit (following spot.place (entries_of self.now)) }
        ensures spot { IfSome result (IsSpot self.now) }
    {
        match &self.tables {
            Tables::Sessions(list, _) => Spot::rebuilt_found(list.next_due(spot.rebuilt(), limit)),
            Tables::Grid(ring) => ring.next_due(spot, limit),
        }
    }

    /// The pane at a spot.
    #[inline(always)]
    pub fn pane(&self, spot: Spot) -> PaneView<'_>
        requires { IsHeldAt self.now spot }
        ensures { find place_cmp spot.place (entries_of self.now) ≡ Some result }
    {
        match &self.tables {
            Tables::Sessions(list, _) => list.pane(spot.rebuilt()).rebuilt(),
            Tables::Grid(ring) => ring.pane(spot),
        }
    }

    /// Has the pane at a spot have fired: it has shown all of its records, and the row of the firing
    /// stands. Windows are kept exactly where the mode retracts.
    #[inline(always)]
    pub fn fire_at(&mut self, spot: Spot, mode: Mode, row: Option<&[Cell]>)
        requires held { IsHeldAt self.old spot }
        requires wide { IfSome row (λ cells. length cells.now ≡ self.old.widths.columns) }
        requires windows { self.old.widths.windows ≡ retracts mode }
        ensures panes { FiresAmong mode spot.place (option_map (λ cells. cells.now) row.entry) (entries_of self.old) (entries_of self.new) }
        ensures keeps { IsKept self.old self.new }
    {
        match &mut self.tables {
            Tables::Sessions(list, _) => list.fire(spot.rebuilt(), mode, row),
            Tables::Grid(ring) => ring.fire(spot, mode, row),
        }
    }

    /// Drops the panes of windows with an end of at most the limit, which is in event time.
    pub fn drop_expired(&mut self, limit: i64)
        ensures panes { entries_of self.new ≡ where_key place_cmp (λ p. int_lt limit p.end) (entries_of self.old) }
        ensures keeps { IsKept self.old self.new }
    {
        match &mut self.tables {
            Tables::Sessions(list, sessions) => drop_from(list, sessions, limit),
            Tables::Grid(ring) => ring.drop_expired(limit),
        }
    }
}

// No pane yet of windows of a shape.
fn open_tables(
    alloc: Global,
    keys: usize,
    shape: Shape,
    live: usize,
    widths: Widths,
) -> Result<Tables, AllocError>
    requires { CanOpen shape keys live widths }
    ensures tables { IfOk result (AreTables shape keys live) }
    ensures empty { IfOk result (λ t. panes_in t ≡ map.empty) }
    ensures widths { IfOk result (λ t. widths_in t ≡ widths) }
{
    match shape {
        Shape::Fixed(size) => {
            let ring = ring_of(size, size, keys, live);
            Ok(Tables::Grid(RingTable::open(alloc, ring, widths)?))
        }
        Shape::Sliding(size, period) => {
            let ring = ring_of(size, period, keys, live);
            Ok(Tables::Grid(RingTable::open(alloc, ring, widths)?))
        }
        Shape::Session(gap) => Ok(Tables::Sessions(
            ListTable::open(alloc, keys * live, widths)?,
            no_sessions(alloc, keys, gap, live)?,
        )),
    }
}

// The ring for windows of a size and a period. It has a slot, also where there is room for no pane.
fn ring_of(size: i64, period: i64, keys: usize, live: usize) -> Ring
    requires low { pos 1 ≤ℤ period }
    requires high { period ≤ℤ size }
    requires room { keys * live ≤ MAX_PANES }
    ensures ring { IsRing result }
    ensures all { 1 ≤ keys * live → result ≡ record { size = size; period = period; keys = keys; bound = live } }
{
    let (keys, bound) = if keys * live == 0 {
        (1, 1)
    } else {
        (keys, live)
    };
    Ring {
        size,
        period,
        keys,
        bound,
    }
}

// No session yet of each key.
fn no_sessions(
    alloc: Global,
    keys: usize,
    gap: i64,
    live: usize,
) -> Result<BoxedSlice<Sessions>, AllocError>
    requires low { pos 1 ≤ℤ gap }
    requires high { gap ≤ℤ greatest_span }
    ensures { IfOk result (λ s. AreOfKeys gap keys live [] (boxed_slice_items s)) }
{
    let mut sessions = Vec::with_capacity(alloc, keys)?;
    for _ in 0..keys {
        sessions.push_reserved(Sessions::open(alloc, gap, live)?);
    }
    Ok(sessions.into_boxed_slice())
}

// What was noted of the sessions of a key, if there are any. It is a guess.
fn noted(sessions: &[Sessions], key: u16) -> usize {
    match sessions.get(key as usize) {
        Some(sessions) => sessions.noted(),
        None => 0,
    }
}

// Drops the panes of sessions that end by a limit, and those sessions, if there are any.
fn drop_from(list: &mut ListTable, sessions: &mut BoxedSlice<Sessions>, limit: i64)
    ensures panes { list.new.panes ≡ map.retain_keys list.old.panes (is_kept limit) }
    ensures keeps { IsAsRoomy list.old list.new }
    ensures sessions { StayOfKeys (map.entries list.old.panes) (boxed_slice_items sessions.old) (map.entries list.new.panes) (boxed_slice_items sessions.new) }
{
    let count = list.len();
    list.drop_expired(limit);
    if list.len() < count {
        drop_sessions(sessions, limit);
    }
}

// Drops the sessions of each key that end by a limit.
fn drop_sessions(sessions: &mut BoxedSlice<Sessions>, limit: i64)
    ensures { AreDropped limit (boxed_slice_items sessions.old) (boxed_slice_items sessions.new) }
{
    for i in 0..sessions.len() {
        sessions[i].drop_expired(limit);
    }
}
