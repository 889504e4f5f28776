//! Where in a log it was read to.

ghost use Rattle.std.specs.Prelude.{◌≡◌, ◌++◌, ◌∷◌, [], true, IfOk, OnOk, option_and_then, option_map};
ghost use Rattle.std.specs.Fmt.{decimal};
ghost use Rattle.wsm_follow.specs.Position.{is_name, place_of, place_text};

use crate::file::FileId;
use crate::numbers::number_of;
use itoa::Buffer;
use std::alloc::{AllocError, Global};
use wsm_journal::is_position;

/// The most bytes of a log's name.
pub const MAX_NAME: usize = 255;

/// How far a log was read, and by what its file is known again.
#[derive(Drop)]
pub struct Position {
    /// Its file.
    pub file: FileId,
    /// How many bytes of it were read.
    pub offset: u64,
    /// The CRC-32 of its first 256 bytes, as far as they were read.
    pub head: u32,
    /// The CRC-32 of the last 4,096 bytes that were read.
    pub tail: u32,
    /// The name that it had.
    pub name: Name,
}

/// The name of a file: at most 255 bytes, and no line feed.
#[derive(Drop)]
pub struct Name {
    bytes: Vec<u8>,
    ghost is_name: { is_name bytes.items ≡ true },
}

impl Name {
    ghost use Rattle.std.specs.Prelude.{◌≡◌, IfOk, if◌then◌else◌, Some, None};
    ghost use Rattle.wsm_follow.specs.Position.{is_name};
    ghost use Rattle.wsm_follow.specs.Seen.{name_seen};

    /// A name, unless it is longer than 255 bytes or has a line feed.
    ///
    /// # Errors
    ///
    /// Memory was refused.
    pub fn new(alloc: Global, bytes: &[u8]) -> Result<Option<Name>, AllocError>
        ensures { IfOk result (λ o. option_map name_seen o ≡ (if is_name bytes.now then Some bytes.now else None)) }
    {
        if bytes.len() <= MAX_NAME && is_position(bytes) {
            let bytes = bytes.to_vec(alloc)?;
            Ok(Some(Name { bytes }))
        } else {
            Ok(None)
        }
    }

    /// Its bytes.
    pub fn bytes(&self) -> &[u8]
        ensures { result.now ≡ name_seen self.now }
    {
        self.bytes.as_slice()
    }
}

// A number and a colon.
fn add_number(number: u64, text: &mut Vec<u8>) -> Result<(), AllocError>
    ensures { OnOk result (text.new.items ≡ text.old.items ++ (decimal number ++ (58 ∷ []))) }
{
    let mut digits = Buffer::new();
    text.extend_from_slice(digits.format(number).as_bytes())?;
    Ok(text.push(b':')?)
}

impl Position {
    ghost use Rattle.std.specs.Prelude.{◌≡◌, ◌++◌, IfOk, OnOk, option_map};
    ghost use Rattle.wsm_follow.specs.Position.{place_of, place_text};
    ghost use Rattle.wsm_follow.specs.Seen.{place_in};

    /// Adds the position's text behind a text: `DEVICE:INODE:OFFSET:HEAD:TAIL:NAME`.
    ///
    /// # Errors
    ///
    /// Memory was refused. A part may have been added then.
    pub fn write(&self, text: &mut Vec<u8>) -> Result<(), AllocError>
        ensures { OnOk result (text.new.items ≡ text.old.items ++ place_text (place_in self.now)) }
    {
        add_number(self.file.device, text)?;
        add_number(self.file.inode, text)?;
        add_number(self.offset, text)?;
        add_number(self.head as u64, text)?;
        add_number(self.tail as u64, text)?;
        text.extend_from_slice(self.name.bytes())
    }

    /// The position that a text says, or none where it is no position's.
    ///
    /// # Errors
    ///
    /// Memory was refused.
    pub fn read(alloc: Global, text: &[u8]) -> Result<Option<Position>, AllocError>
        ensures { IfOk result (λ o. option_map place_in o ≡ place_of text.now) }
    {
        match Parts::of(text) {
            None => Ok(None),
            Some(parts) => parts.position(alloc),
        }
    }
}

// What a text says of a position.
#[derive(Clone, Copy)]
struct Parts<'t> {
    device: u64,
    inode: u64,
    offset: u64,
    head: u64,
    tail: u64,
    name: &'t [u8],
}

impl Parts<'_> {
    ghost use Rattle.std.specs.Prelude.{◌≡◌, IfOk, option_and_then, option_map};
    ghost use Rattle.wsm_follow.specs.Position.{place_of};
    ghost use Rattle.wsm_follow.specs.Seen.{place_in, place_if_parts};

    // Their position, where the sums have 32 bits and the name is one.
    fn position(&self, alloc: Global) -> Result<Option<Position>, AllocError>
        ensures { IfOk result (λ o. option_map place_in o ≡ place_if_parts self.now) }
    {
        let Ok(head) = u32::try_from(self.head) else {
            return Ok(None);
        };
        let Ok(tail) = u32::try_from(self.tail) else {
            return Ok(None);
        };
        let Some(name) = Name::new(alloc, self.name)? else {
            return Ok(None);
        };
        Ok(Some(Position {
            file: FileId {
                device: self.device,
                inode: self.inode,
            },
            offset: self.offset,
            head,
            tail,
            name,
        }))
    }

    // What a text says.
    #[tactic(auto, unfolding(crate::specs::Position::place_of))]
    fn of(text: &[u8]) -> Option<Parts<'_>>
        ensures { place_of text.now ≡ option_and_then place_if_parts result }
    {
        let (device, rest) = number_of(text)?;
        let (inode, rest) = number_of(rest)?;
        let (offset, rest) = number_of(rest)?;
        let (head, rest) = number_of(rest)?;
        let (tail, name) = number_of(rest)?;
        Some(Parts {
            device,
            inode,
            offset,
            head,
            tail,
            name,
        })
    }
}
