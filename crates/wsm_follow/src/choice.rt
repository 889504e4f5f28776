//! Which file a log that was read goes on in.

ghost use Rattle.std.specs.Prelude.{◌≡◌, ◌<◌, IfSome, length, map};
ghost use Rattle.wsm_follow.specs.Choice.{any, chosen, is_copy, is_kept, is_own, last_of, loss_of};
ghost use Rattle.wsm_follow.specs.Judged.{InChoice, judged};
ghost use Rattle.wsm_follow.specs.Listed.{listing};
ghost use Rattle.wsm_follow.specs.Seen.{place_in};

use crate::file::is_same;
use crate::order::Listed;
use crate::position::Position;

/// Why the bytes of a log that were read aren't there.
#[derive(Clone, Copy, Debug, PartialEq, Eq)]
pub enum Loss {
    /// Its file isn't there.
    Gone,
    /// Its file is shorter.
    Shorter,
    /// Its file has other bytes: it was cut and has grown again, or another file has got its number.
    Other,
}

/// Where a log that was read goes on. A number is a place in the list of files.
#[derive(Clone, Copy)]
pub enum Choice {
    /// In its own file.
    Own,
    /// In another file, which has the bytes that were read: the log was copied and cut.
    Copy(usize),
    /// This packed file is needed.
    Packed(usize),
    /// Nowhere.
    Lost(Loss),
}

/// A file of a log, and whether it has the bytes that were read.
#[derive(Drop)]
pub struct Candidate {
    pub listed: Listed,
    /// By their sums.
    pub fits: bool,
}

fn is_own(position: &Position, file: &Listed) -> bool
    ensures { result ≡ is_own (place_in position.now) (listing file.now) }
{
    !file.is_packed && is_same(file.file, position.file)
}

fn is_kept(position: &Position, file: &Candidate) -> bool
    ensures { result ≡ is_kept (place_in position.now) (judged file.now) }
{
    is_own(position, &file.listed) && file.fits
}

fn is_copy(position: &Position, file: &Candidate) -> bool
    ensures { result ≡ is_copy (place_in position.now) (judged file.now) }
{
    0 < position.offset && (!file.listed.is_packed && file.fits)
}

fn has_own(position: &Position, files: &[Candidate]) -> bool
    ensures { result ≡ any (is_kept (place_in position.now)) (map judged files.now) }
{
    match files.split_first() {
        None => false,
        Some((first, rest)) => is_kept(position, first) || has_own(position, rest),
    }
}

// Where the newest copy stands.
fn last_copy(position: &Position, files: &[Candidate]) -> Option<usize>
    ensures value { result ≡ last_of (is_copy (place_in position.now)) (map judged files.now) }
    ensures within { IfSome result (λ i. i < length files.now) }
{
    let (first, rest) = files.split_first()?;
    match last_copy(position, rest) {
        Some(i) => Some(i + 1),
        None if is_copy(position, first) => Some(0),
        None => None,
    }
}

// Where the newest packed file stands.
fn last_packed(files: &[Candidate]) -> Option<usize>
    ensures value { result ≡ last_of (λ f. f.listed.is_packed) (map judged files.now) }
    ensures within { IfSome result (λ i. i < length files.now) }
{
    let (first, rest) = files.split_first()?;
    match last_packed(rest) {
        Some(i) => Some(i + 1),
        None if first.listed.is_packed => Some(0),
        None => None,
    }
}

fn loss_of(position: &Position, files: &[Candidate]) -> Loss
    ensures { result ≡ loss_of (place_in position.now) (map judged files.now) }
{
    let Some((first, rest)) = files.split_first() else {
        return Loss::Gone;
    };
    if !is_own(position, &first.listed) {
        loss_of(position, rest)
    } else if first.listed.size < position.offset {
        Loss::Shorter
    } else {
        Loss::Other
    }
}

/// Where a log goes on that was read up to a position: in its own file where that has the bytes that were
/// read; else in the newest that has them. Else the newest packed file is needed, and where there is none
/// the bytes that were read are lost. The files are in their order.
pub fn chosen(position: &Position, files: &[Candidate]) -> Choice
    ensures value { result ≡ chosen (place_in position.now) (map judged files.now) }
    ensures within { InChoice (length files.now) result }
{
    if has_own(position, files) {
        return Choice::Own;
    }
    if let Some(i) = last_copy(position, files) {
        return Choice::Copy(i);
    }
    match last_packed(files) {
        Some(i) => Choice::Packed(i),
        None => Choice::Lost(loss_of(position, files)),
    }
}
