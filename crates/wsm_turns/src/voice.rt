//! Whose clock a record tells its time by.

ghost use Rattle.std.specs.Prelude.{◌≡◌};
ghost use Rattle.wsm_turns.specs.Heard.{silent_in};
ghost use Rattle.wsm_turns.specs.Voices.{stamp_by};

use wsm_watermarks::Stamp;

/// The clock that a record tells its time by.
#[derive(Clone, Copy, Debug, PartialEq, Eq)]
pub enum Voice {
    /// That of its key.
    Key,
    /// One that its line names, by its number: they are numbered as they first speak.
    Named(usize),
    /// None: its line names no clock, or one more than there may be.
    Silent,
}

/// The stamp by which a record tells its time that has this one by its key. There is none where it has no voice.
pub fn stamp_by(voice: Voice, stamp: Stamp) -> Option<Stamp>
    ensures { result ≡ stamp_by voice stamp }
{
    match voice {
        Voice::Key => Some(stamp),
        Voice::Named(clock) => Some(Stamp {
            clock,
            time: stamp.time,
        }),
        Voice::Silent => None,
    }
}

/// 1 for a record without a voice, and 0 for one that has one.
pub fn silent_in(voice: Voice) -> u64
    ensures { result ≡ silent_in voice }
{
    match voice {
        Voice::Key | Voice::Named(_) => 0,
        Voice::Silent => 1,
    }
}
