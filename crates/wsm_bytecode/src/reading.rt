//! From bytes to a program.

ghost use Rattle.std.specs.Prelude.{◌≡◌, IfOk, IsTrue, Ok};
ghost use Rattle.wsm_program.specs.Program.{Program as Value, is_program};
ghost use Rattle.wsm_program.specs.View.{header_of as seen};
ghost use Rattle.wsm_bytecode.specs.Spelling.{IsSpelling};
ghost use Rattle.wsm_bytecode.specs.Reading.{Gives, parts_at, program_at, sections_at, sections_seen, decode as decoded};

use crate::reading::code::section_of;
use crate::reading::header::{header_of, version_of};
use crate::version::Version;
use std::alloc::Global;
use wsm_program::{DecodeRefusal, Header, Program, Section};

mod code;
mod header;
mod names;
mod numbers;
mod schema;
mod settings;
mod version1;
mod version2;

// The code of a program.
#[derive(Drop)]
struct Sections {
    selection: Section,
    update: Section,
    fire: Section,
}

/// The program that the bytes spell in version 1 or 2, or their first fault from the left.
///
/// A value is judged once its last byte was read: so a value that is refused comes before bytes
/// that are cut off behind it.
pub fn decode(alloc: Global, bytes: &[u8]) -> Result<Program, DecodeRefusal>
    // What is read is spelled so.
    ensures found { IfOk result (λ p. IsSpelling p bytes.now) }
    // What is read is a program.
    ensures lawful { IfOk result (λ p. IsTrue (is_program p)) }
    // What is spelled so is read, unless memory runs out.
    ensures only { (p : Value) → IsTrue (is_program p) → IsSpelling p bytes.now → Gives (λ q. q) result (Ok p) }
    // Which fault it is.
    ensures exact { Gives (λ q. q) result (decoded bytes.now) }
{
    all(alloc, bytes)
}

// A program and nothing after it.
#[tactic(auto, unfolding(crate::specs::Reading::decode))]
fn all(alloc: Global, bytes: &[u8]) -> Result<Program, DecodeRefusal>
    ensures { Gives (λ q. q) result (decoded bytes.now) }
{
    let (program, rest) = program_of(alloc, bytes)?;
    if !rest.is_empty() {
        return Err(DecodeRefusal::TrailingBytes);
    }
    Ok(program)
}

#[tactic(auto, unfolding(crate::specs::Reading::program_at))]
fn program_of(alloc: Global, bytes: &[u8]) -> Result<(Program, &[u8]), DecodeRefusal>
    ensures { Gives (λ x. (x.0, x.1.now)) result (program_at bytes.now) }
{
    let (version, rest) = version_of(bytes)?;
    parts_of(alloc, version, rest)
}

// What stands behind the version.
#[tactic(auto, unfolding(crate::specs::Reading::parts_at))]
fn parts_of(
    alloc: Global,
    version: Version,
    bytes: &[u8],
) -> Result<(Program, &[u8]), DecodeRefusal>
    ensures { Gives (λ x. (x.0, x.1.now)) result (parts_at version bytes.now) }
{
    let (header, rest) = header_of(alloc, version, bytes)?;
    let (sections, rest) = sections_of(alloc, version, &header, rest)?;
    let Sections {
        selection,
        update,
        fire,
    } = sections;
    Ok((Program::of_parts(header, selection, update, fire), rest))
}

// The sections of a program. The header stays with the caller, who lets it go in one place.
#[tactic(auto, unfolding(crate::specs::Reading::sections_at))]
fn sections_of<'a>(
    alloc: Global,
    version: Version,
    header: &Header,
    bytes: &'a [u8],
) -> Result<(Sections, &'a [u8]), DecodeRefusal>
    ensures { Gives (λ x. (sections_seen x.0, x.1.now)) result (sections_at version (seen header.now) bytes.now) }
{
    let (selection, rest) = section_of(alloc, version, header, bytes)?;
    let (update, rest) = section_of(alloc, version, header, rest)?;
    let (fire, rest) = section_of(alloc, version, header, rest)?;
    let sections = Sections {
        selection,
        update,
        fire,
    };
    Ok((sections, rest))
}
