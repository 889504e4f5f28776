//! Bytes of names and of parts.

ghost use Rattle.std.specs.Prelude.{◌≡◌, length};
ghost use Rattle.wsm_program.specs.View.{header_of};
ghost use Rattle.wsm_key_memory.specs.Memory.{bytes_by, bytes_of, pane_bytes, parts_of, part_bytes, rows_bytes};

use wsm_program::Header;
use wsm_record::Mode;
use wsm_rules::Verified;

// What a name takes: its text, its cell in quotes, and its places in tables that grow by doubling.
const NAME: u64 = 1_280;

// What each part takes beside its places and its panes.
const PART: u64 = 262_144;

// What each place of a part takes beside its panes: its name, and its sessions or its guess.
const PLACE: u64 = 512;

// What a pane takes beside its accumulators, its columns and its rows.
const PANE: u64 = 96;

// What an accumulator and a column take.
const ACCUMULATOR: u64 = 16;

const COLUMN: u64 = 8;

// What a row of a turn takes.
const ROW: u64 = 288;

/// How many parts so many keys take, of which each has so many places.
pub fn parts_of(places: u64, keys: u64) -> u64
    ensures { result ≡ parts_of places keys }
{
    if places == 0 {
        0
    } else {
        keys.div_ceil(places)
    }
}

/// How many bytes so many keys take at most where an accepted program is run by parts: their names, and an engine of each part with all
/// that it reserves. The greatest number of 64 bits stands for it and for all that is greater.
pub fn bytes_of_keys(verified: &Verified, keys: u64) -> u64
    ensures { result ≡ bytes_of verified.now keys }
{
    let header = verified.program().header();
    let places = header.schema.key_count() as u64;
    bytes_by(places, verified.costs().held, pane_bytes(header), keys)
}

// The same of parts with so many places, which hold at most so many panes of so many bytes.
fn bytes_by(places: u64, held: u64, pane: u64, keys: u64) -> u64
    ensures { result ≡ bytes_by places held pane keys }
{
    let parts = parts_of(places, keys).saturating_mul(part_bytes(places, held, pane));
    keys.saturating_mul(NAME).saturating_add(parts)
}

// What a part takes.
fn part_bytes(places: u64, held: u64, pane: u64) -> u64
    ensures { result ≡ part_bytes places held pane }
{
    let panes = held.saturating_mul(pane);
    places
        .saturating_mul(PLACE)
        .saturating_add(panes)
        .saturating_add(PART)
}

// What a pane takes.
fn pane_bytes(header: &Header) -> u64
    ensures { result ≡ pane_bytes (header_of header.now) }
{
    let accumulators = (header.kinds.len() as u64).saturating_mul(ACCUMULATOR);
    let columns = (header.columns.len() as u64).saturating_mul(COLUMN);
    accumulators
        .saturating_add(columns)
        .saturating_add(rows_bytes(header.mode))
        .saturating_add(PANE)
}

// What the rows of a pane take in a turn: one, and the one that it withdraws.
fn rows_bytes(mode: Mode) -> u64
    ensures { result ≡ rows_bytes mode }
{
    if mode.retracts() { 2 * ROW } else { ROW }
}
