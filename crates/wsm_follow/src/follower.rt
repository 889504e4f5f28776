//! The whole lines of a log, in turns.

ghost use Rattle.std.specs.Prelude.{◌≡◌, List, IfOk, IfSome, None, Some, map, option_map};
ghost use Rattle.wsm_follow.specs.Follower.{IsFront, IsFrontOf};
ghost use Rattle.wsm_follow.specs.Listed.{listing};
ghost use Rattle.wsm_follow.specs.Logs.{Log, next_in};
ghost use Rattle.wsm_follow.specs.Names.{Listing};

use crate::choice::{Candidate, Choice, Loss, chosen};
use crate::file::{FileId, is_same};
use crate::folder::{Folder, FolderFault};
use crate::order::{Listed, first_readable, in_order};
use crate::position::{Name, Position};
use crate::reading::{Found, Reading};
use crate::sums::sums_at;
use std::alloc::{AllocError, Global};

// How many bytes are asked for at once for a sum.
const SUMMED: usize = 4096;

/// What a turn came to.
#[derive(Drop)]
pub enum Turn {
    /// Whole lines were read, and are on the disk; the position is behind them.
    Lines,
    /// No line has ended since.
    Nothing,
    /// The log ended, and goes on in the one that came next; the position is at that one's beginning. So
    /// many bytes stood behind its last line feed: a line that never ended, which is left out.
    Next(u64),
    /// It goes on in a copy of the log, or, where the log that ended has no name any more, in the first that
    /// changed later: nobody can say that no line was lost.
    Elsewhere,
    /// The file of this name is needed, and is packed.
    Packed(Vec<u8>),
    /// The bytes that were read aren't there.
    Lost(Lost),
}

/// What it would cost to go on where the bytes that were read aren't there.
#[derive(Clone, Copy, Debug, PartialEq, Eq)]
pub struct Lost {
    /// Why they aren't there.
    pub loss: Loss,
    /// How many bytes of the log were read, which are gone or changed.
    pub read: u64,
    /// How many bytes the log's own file has: these are read where it is begun anew, and what was read before
    /// comes again.
    pub there: u64,
}

// A log, and how far it was read.
#[derive(Drop)]
struct Followed {
    log: Name,
    position: Position,
    alloc: Global,
}

// What a turn came to, and where it goes on, if it doesn't go on where it was.
#[derive(Drop)]
struct Went {
    turn: Turn,
    to: Option<Position>,
}

// The front of a file: its position, or the name of one that is packed.
#[derive(Drop)]
enum Front {
    At(Position),
    Packed(Vec<u8>),
}

/// Follows a log: gives its whole lines in turns, over rotations.
#[derive(Drop)]
pub struct Follower {
    followed: Followed,
    reading: Reading,
    // What is read for sums.
    room: Vec<u8>,
}

// The file that stands behind another one.
fn next_of(file: FileId, files: &[Listed]) -> Option<&Listed>
    ensures { option_map (λ f. f.now.file) result ≡ next_in file (map (λ f. f.file) (map listing files.now)) }
{
    let (first, rest) = files.split_first()?;
    let (second, _) = rest.split_first()?;
    if is_same(first.file, file) {
        Some(second)
    } else {
        next_of(file, rest)
    }
}

// Whether a file is listed.
fn is_listed(file: FileId, files: &[Listed]) -> bool {
    files.iter().any(|f| is_same(f.file, file))
}

// The oldest file that changed at a time or later, or the log itself.
fn changed_since(changed: u64, files: &[Listed]) -> Option<&Listed> {
    files.iter().find(|f| f.is_log || changed <= f.changed)
}

// How many bytes the log's own file has.
fn bytes_there(files: &[Candidate]) -> u64 {
    match files.iter().find(|f| f.listed.is_log) {
        Some(log) => log.listed.size,
        None => 0,
    }
}

// The position at the beginning of a file.
fn front_of(file: FileId, name: Name) -> Position
    ensures { result ≡ record { file = file; offset = 0; head = 0; tail = 0; name = name } }
{
    Position {
        file,
        offset: 0,
        head: 0,
        tail: 0,
        name,
    }
}

/// The position at the beginning of the log's own file, if that is there.
///
/// # Errors
///
/// A call of the folder failed, or memory was refused.
pub fn beginning<F: Folder>(folder: &mut F, log: Name) -> Result<Option<Position>, FolderFault>
    ensures logs { F.logs folder.new ≡ F.logs folder.old }
    ensures begins { IfOk result (λ o. IfSome o (λ p. p.offset ≡ 0)) }
{
    let files = folder.list(log.bytes())?;
    match files.iter().find(|f| f.is_log) {
        Some(file) => Ok(Some(front_of(file.file, log))),
        None => Ok(None),
    }
}

/// The position at the beginning of the log as far back as it can be read, if its own file is there: in the oldest of
/// its files behind which none is packed.
///
/// # Errors
///
/// A call of the folder failed, or memory was refused.
pub fn first_beginning<F: Folder>(
    alloc: Global,
    folder: &mut F,
    log: &Name,
) -> Result<Option<Position>, FolderFault>
    ensures logs { F.logs folder.new ≡ F.logs folder.old }
    ensures begins { (known : List Log) → F.logs folder.old ≡ Some known → IfOk result (λ o. IfSome o (λ p. (files : List Listing) × IsFront known files p)) }
{
    let files = in_order(alloc, folder.list(log.bytes())?)?;
    match first_readable(files.as_slice()) {
        Some(file) if has_log(files.as_slice()) => Ok(Some(front_in(alloc, file)?)),
        _ => Ok(None),
    }
}

// Whether the log's own file is there.
fn has_log(files: &[Listed]) -> bool {
    files.iter().any(|f| f.is_log)
}

// The position at the beginning of a file of the log.
fn front_in(alloc: Global, file: &Listed) -> Result<Position, FolderFault>
    ensures { IfOk result (λ p. (p.file ≡ file.now.file) × (p.offset ≡ 0)) }
{
    match Name::new(alloc, file.name.as_slice())? {
        Some(name) => Ok(front_of(file.file, name)),
        None => Err(FolderFault::Failed),
    }
}

// The front of a file of the log.
fn front_of_listed(alloc: Global, file: &Listed) -> Result<Front, FolderFault>
    ensures { IfOk result (λ front. IsFrontOf file.now.file front) }
{
    if file.is_packed {
        return Ok(Front::Packed(file.name.clone()?));
    }
    Ok(Front::At(front_in(alloc, file)?))
}

// A turn goes on where it was.
fn staying(turn: Turn) -> Went
    ensures { result ≡ record { turn = turn; to = None } }
{
    Went { turn, to: None }
}

impl Follower {
    ghost use Rattle.std.specs.Prelude.{◌≡◌, ℕ, List, Ok, Some, IfOk, OnErr};
    ghost use Rattle.wsm_follow.specs.Follower.{Goes, HasSums, at, lines_of, longest_of, position_of};
    ghost use Rattle.wsm_follow.specs.Logs.{IsAmong, Log, bytes_of};
    ghost use Rattle.wsm_follow.specs.Seen.{place_in};

    /// Follows the log of this name from a position on. Of a line at most `longest` bytes are wanted; two
    /// more are kept of one that is longer than a read.
    ///
    /// # Errors
    ///
    /// Memory was refused.
    pub fn new(
        alloc: Global,
        log: Name,
        position: Position,
        longest: usize,
    ) -> Result<Follower, AllocError>
        ensures at { IfOk result (λ f. place_in (position_of f) ≡ place_in position) }
        ensures longest { IfOk result (λ f. longest_of f ≡ longest) }
    {
        Ok(Follower {
            followed: Followed {
                log,
                position,
                alloc,
            },
            reading: Reading::new(alloc, longest)?,
            room: vec![in alloc; 0; SUMMED]?,
        })
    }

    /// How far the log was read.
    pub fn position(&self) -> &Position
        ensures { result.now ≡ position_of self.now }
    {
        &self.followed.position
    }

    /// The lines that the last turn gave, each with its line feed, where it was [`Turn::Lines`].
    pub fn lines(&self) -> &[u8]
        ensures { result.now ≡ lines_of self.now }
    {
        self.reading.text()
    }

    /// Reads on, once.
    ///
    /// # Errors
    ///
    /// A call of the folder failed, or memory was refused. The position is as it was.
    pub fn turn<F: Folder>(&mut self, folder: &mut F) -> Result<Turn, FolderFault>
        ensures logs { F.logs folder.new ≡ F.logs folder.old }
        ensures goes { (known : List Log) → F.logs folder.old ≡ Some known → IsAmong (position_of self.old).file known →
            IfOk result (λ turn. Goes (longest_of self.old) known (at (position_of self.old)) (lines_of self.new) (at (position_of self.new)) turn) }
        ensures sums { (known : List ℕ) → bytes_of (position_of self.old).file (F.logs folder.old) ≡ Some known → result ≡ Ok Turn.Lines →
            HasSums known (position_of self.new) }
        ensures synced { result ≡ Ok Turn.Lines → F.synced folder.new ≡ Some ((position_of self.new).file, (position_of self.new).offset) }
        ensures stays { OnErr result (position_of self.new ≡ position_of self.old) }
        ensures longest { longest_of self.new ≡ longest_of self.old }
    {
        if !self.followed.is_there(folder, &mut self.room)? {
            let files = self.followed.judged(folder, &mut self.room)?;
            let went = self.followed.search(&files)?;
            return Ok(self.followed.go(went));
        }
        let (file, offset) = (self.followed.position.file, self.followed.position.offset);
        match self.reading.read(folder, file, offset)? {
            Found::Lines(end) => self.followed.take_lines(folder, &mut self.room, end),
            Found::Part(end) => {
                let went = self.followed.move_on(folder, end)?;
                Ok(self.followed.go(went))
            }
        }
    }
}

impl Followed {
    ghost use Rattle.std.specs.Prelude.{◌≡◌, ℕ, List, Ok, Some, IfOk, OnErr, map, unwrap_or};
    ghost use Rattle.wsm_follow.specs.Follower.{Begins, HasSums, MovesOn, Searches, Takes, at, to_of};
    ghost use Rattle.wsm_follow.specs.Logs.{AreInTurn, Log, bytes_in, bytes_of, next_in};
    ghost use Rattle.wsm_follow.specs.Listed.{listing};

    // Goes on where a turn says.
    fn go(&mut self, went: Went) -> Turn
        ensures turn { result ≡ went.turn }
        ensures position { self.new.position ≡ unwrap_or went.to self.old.position }
    {
        let Went { turn, to } = went;
        if let Some(position) = to {
            self.position = position;
        }
        turn
    }

    // Whether the position's file has the bytes that were read.
    fn is_there<F: Folder>(&self, folder: &mut F, room: &mut [u8]) -> Result<bool, FolderFault>
        ensures { F.logs folder.new ≡ F.logs folder.old }
    {
        match folder.size(self.position.file)? {
            Some(size) if self.position.offset <= size => {
                self.fits(folder, room, self.position.file)
            }
            _ => Ok(false),
        }
    }

    // Whether a file has the bytes that were read, by their sums.
    fn fits<F: Folder>(
        &self,
        folder: &mut F,
        room: &mut [u8],
        file: FileId,
    ) -> Result<bool, FolderFault>
        ensures { F.logs folder.new ≡ F.logs folder.old }
    {
        match sums_at(folder, file, self.position.offset, room)? {
            Some(sums) => Ok(sums.head == self.position.head && sums.tail == self.position.tail),
            None => Ok(false),
        }
    }

    // The lines that were read are on the disk, and the position behind them.
    fn take_lines<F: Folder>(
        &mut self,
        folder: &mut F,
        room: &mut [u8],
        end: u64,
    ) -> Result<Turn, FolderFault>
        ensures logs { F.logs folder.new ≡ F.logs folder.old }
        ensures takes { IfOk result (λ turn. Takes (at self.old.position) (at self.new.position) end turn) }
        ensures sums { (known : List ℕ) → bytes_of self.old.position.file (F.logs folder.old) ≡ Some known → result ≡ Ok Turn.Lines →
            HasSums known self.new.position }
        ensures synced { result ≡ Ok Turn.Lines → F.synced folder.new ≡ Some (self.new.position.file, self.new.position.offset) }
        ensures stays { OnErr result (self.new.position ≡ self.old.position) }
    {
        let file = self.position.file;
        let Some(sums) = sums_at(folder, file, end, room)? else {
            return Ok(Turn::Nothing);
        };
        folder.sync(file, end)?;
        self.position.offset = end;
        self.position.head = sums.head;
        self.position.tail = sums.tail;
        Ok(Turn::Lines)
    }

    // The file has no line more up to its end now: goes on to the next log, where it has ended.
    fn move_on<F: Folder>(&self, folder: &mut F, end: u64) -> Result<Went, FolderFault>
        ensures logs { F.logs folder.new ≡ F.logs folder.old }
        ensures goes { (known : List Log) (bytes : List ℕ) → F.logs folder.old ≡ Some known → bytes_in self.now.position.file known ≡ Some bytes →
            IfOk result (λ went. MovesOn known bytes end (at self.now.position) (to_of self.now went) went.turn) }
        ensures moves { IfOk result (λ went. went.turn ≡ Turn.Lines → ⊥) }
    {
        let (file, offset) = (self.position.file, self.position.offset);
        let Some(ended) = folder.ended(file)? else {
            return Ok(staying(Turn::Nothing));
        };
        if end < ended.size {
            return Ok(staying(Turn::Nothing));
        }
        let files = self.listed(folder)?;
        self.begin_next(files.as_slice(), ended.changed, end.saturating_sub(offset))
    }

    // The turn goes on at the beginning of the log that came next, if that is there.
    fn begin_next(&self, files: &[Listed], changed: u64, left: u64) -> Result<Went, FolderFault>
        ensures { IfOk result (λ went. Begins (next_in self.now.position.file (map (λ f. f.file) (map listing files.now))) left (at self.now.position)
            (to_of self.now went) went.turn) }
    {
        if let Some(next) = next_of(self.position.file, files) {
            return Ok(match front_of_listed(self.alloc, next)? {
                Front::At(position) => Went {
                    turn: Turn::Next(left),
                    to: Some(position),
                },
                Front::Packed(name) => staying(Turn::Packed(name)),
            });
        }
        if is_listed(self.position.file, files) {
            return Ok(staying(Turn::Nothing));
        }
        let Some(next) = changed_since(changed, files) else {
            return Ok(staying(Turn::Nothing));
        };
        Ok(match front_of_listed(self.alloc, next)? {
            Front::At(position) => Went {
                turn: Turn::Elsewhere,
                to: Some(position),
            },
            Front::Packed(name) => staying(Turn::Packed(name)),
        })
    }

    // The files of the log, the oldest first.
    fn listed<F: Folder>(&self, folder: &mut F) -> Result<Vec<Listed>, FolderFault>
        ensures logs { F.logs folder.new ≡ F.logs folder.old }
        ensures listed { (known : List Log) → F.logs folder.old ≡ Some known → IfOk result (λ files. AreInTurn known (map listing files.items)) }
    {
        let files = folder.list(self.log.bytes())?;
        Ok(in_order(self.alloc, files)?)
    }

    // Looks for the bytes that were read in the files of the log.
    fn search(&self, files: &[Candidate]) -> Result<Went, FolderFault>
        ensures { IfOk result (λ went. Searches (at self.now.position) (to_of self.now went) went.turn) }
    {
        match chosen(&self.position, files) {
            Choice::Own => Ok(staying(Turn::Nothing)),
            Choice::Copy(i) => self.go_on_in(&files[i].listed),
            Choice::Packed(i) => Ok(staying(Turn::Packed(files[i].listed.name.clone()?))),
            Choice::Lost(loss) => Ok(staying(Turn::Lost(Lost {
                loss,
                read: self.position.offset,
                there: bytes_there(files),
            }))),
        }
    }

    // The log goes on in a copy.
    fn go_on_in(&self, file: &Listed) -> Result<Went, FolderFault>
        ensures { IfOk result (λ went. went.turn ≡ Turn.Elsewhere) }
    {
        let Some(name) = Name::new(self.alloc, file.name.as_slice())? else {
            return Err(FolderFault::Failed);
        };
        Ok(Went {
            turn: Turn::Elsewhere,
            to: Some(Position {
                file: file.file,
                offset: self.position.offset,
                head: self.position.head,
                tail: self.position.tail,
                name,
            }),
        })
    }

    // The files of the log, the oldest first, and which of them have the bytes that were read.
    fn judged<F: Folder>(
        &self,
        folder: &mut F,
        room: &mut [u8],
    ) -> Result<Vec<Candidate>, FolderFault>
        ensures { F.logs folder.new ≡ F.logs folder.old }
    {
        let mut judged = Vec::new(self.alloc);
        let mut files = self.listed(folder)?;
        'each: while !files.is_empty() {
            let listed = files.remove(0);
            let may_fit = !listed.is_packed && self.position.offset <= listed.size;
            let fits = may_fit && self.fits(folder, room, listed.file)?;
            judged.push(Candidate { listed, fits })?;
        }
        Ok(judged)
    }
}
