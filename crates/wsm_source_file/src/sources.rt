//! Sources: the files that say how the lines of a log are read.

ghost use Rattle.std.specs.Prelude.{IfOk};
ghost use Rattle.wsm_turns.specs.Clocks.{AreClocks};

use std::fs;
use std::io::ErrorKind;
use std::rt::Files;
use wsm_inputs::End;
use wsm_job::{Stop, end_of, read};
use wsm_lines::Source;
use wsm_rules::Verified;
use wsm_source::{
    ClockDescription, Description, FormDescription, KeyNaming, NamedClocks, Refusal, SourceFault,
    SourceRefusal, bind, describe,
};
use wsm_turns::{Clocks, clocks_of};
use wsm_values::{Word, Zone, ZoneFault};

// Where the zones of the system stand.
const ZONES: &str = "/usr/share/zoneinfo/";

/// What a source comes to for a program: how a line is read, and its clocks, where it has any.
#[derive(Drop)]
pub struct Bound {
    pub source: Source,
    pub clocks: Option<Clocks>,
}

/// A source's file, which is read once. What is wrong with it is told when it is asked for.
pub struct SourceFile<'j> {
    name: &'j String,
    bytes: Result<Vec<u8>, End>,
}

impl Drop for SourceFile<'_> {
    fn drop(self) {
        let SourceFile { name: _, bytes: _ } = self;
    }
}

impl<'j> SourceFile<'j> {
    /// The file of this name.
    pub fn of<R: Files + AllocGlobal>(rt: &R, name: &'j String) -> SourceFile<'j> {
        SourceFile {
            name,
            bytes: read(rt, name),
        }
    }

    // Its text.
    fn text<R: AllocGlobal>(&self, rt: &R) -> Result<&str, Stop> {
        match &self.bytes {
            Ok(bytes) => match str::from_utf8(bytes) {
                Ok(text) => Ok(text),
                Err(_) => Err(refused(rt, SourceFault::NotToml, "", "")),
            },
            Err(end) => Err(Stop::End(*end)),
        }
    }

    /// What it comes to for an accepted program.
    pub fn bound<R: Files + AllocGlobal>(&self, rt: &R, verified: &Verified) -> Result<Bound, Stop>
        ensures { IfOk result (λ bound. AreClocks bound.clocks) }
    {
        let text = self.text(rt)?;
        let description = describe(rt.alloc(), text)?;
        bound_by(rt, self.name, text, &description, verified)
    }

    /// Its bytes, and behind them those of the file that its keys are looked up in, where it has one.
    pub fn told<R: Files + AllocGlobal>(&self, rt: &R) -> Result<Vec<u8>, Stop> {
        let text = self.text(rt)?;
        let names = self.names(rt, text)?;
        let mut told = text.as_bytes().to_vec(rt.alloc())?;
        told.extend_from_slice(&names)?;
        Ok(told)
    }

    // The bytes of the file that its keys are looked up in; none where it has no such file.
    fn names<R: Files + AllocGlobal>(&self, rt: &R, text: &str) -> Result<Vec<u8>, Stop> {
        let description = describe(rt.alloc(), text)?;
        names_of(rt, self.name, &description.key.naming)
    }

    /// The file of the names of any number of keys that it names, which stands beside it. A source that is wrong names none.
    pub fn file_of_keys<R: AllocGlobal>(&self, rt: &R) -> Result<Option<String>, Stop> {
        let Ok(text) = self.text(rt) else {
            return Ok(None);
        };
        match describe(rt.alloc(), text) {
            Ok(description) => self.keys_beside(rt, &description.keys),
            Err(SourceRefusal::Memory) => Err(Stop::End(End::Memory)),
            Err(_) => Ok(None),
        }
    }

    // The path of the file of its keys, where it names one.
    fn keys_beside<R: AllocGlobal>(
        &self,
        rt: &R,
        keys: &Option<Word>,
    ) -> Result<Option<String>, Stop> {
        match keys {
            Some(file) => Ok(Some(path_beside(rt, self.name.as_str(), file.as_str())?)),
            None => Ok(None),
        }
    }
}

/// What the source of a file's name comes to for an accepted program.
pub fn source_for<R: Files + AllocGlobal>(
    rt: &R,
    name: &String,
    verified: &Verified,
) -> Result<Bound, Stop>
    ensures { IfOk result (λ bound. AreClocks bound.clocks) }
{
    SourceFile::of(rt, name).bound(rt, verified)
}

// What the text of a source comes to, of which it is known what it says.
fn bound_by<R: Files + AllocGlobal>(
    rt: &R,
    name: &String,
    text: &str,
    description: &Description,
    verified: &Verified,
) -> Result<Bound, Stop>
    ensures { IfOk result (λ bound. AreClocks bound.clocks) }
{
    let source = source_of(rt, name, text, description, verified)?;
    let clocks = clocks_for(rt, text, &description.clock, verified)?;
    Ok(Bound { source, clocks })
}

// What the text of a source says of a program's records.
fn source_of<R: Files + AllocGlobal>(
    rt: &R,
    name: &String,
    text: &str,
    description: &Description,
    verified: &Verified,
) -> Result<Source, Stop> {
    let zone = zone_of(rt, text, &description.time.form)?;
    let names = names_of(rt, name, &description.key.naming)?;
    let schema = &verified.program().header().schema;
    match bind(rt.alloc(), description, schema, zone, &names) {
        Ok(source) => Ok(source),
        Err(refusal) => Err(Stop::Source(SourceRefusal::of(refusal, text))),
    }
}

// The clocks that a source has. A query with SOURCES has a watermark of each, and takes none of clocks; one whose SKEW is less than
// BOUND and STEP would refuse what has waited.
fn clocks_for<R: AllocGlobal>(
    rt: &R,
    text: &str,
    clock: &Option<ClockDescription>,
    verified: &Verified,
) -> Result<Option<Clocks>, Stop>
    ensures { IfOk result AreClocks }
{
    let Some(said) = clock else {
        return Ok(None);
    };
    let header = verified.program().header();
    if header.schema.sources().len() != 0 {
        return Err(refused(rt, SourceFault::Conflict, "clock", text));
    }
    let (start, skew) = (header.clock.start, header.clock.skew);
    match clocks_of(
        said.agree,
        said.bound,
        said.step,
        said.forget,
        said.room,
        most_of(&said.named),
        start,
        skew,
    ) {
        Some(clocks) => Ok(Some(clocks)),
        None => Err(refused(rt, SourceFault::Conflict, "clock.bound", text)),
    }
}

// How many clocks there may be that lines name, where they name them.
fn most_of(named: &Option<NamedClocks>) -> Option<u64> {
    match named {
        Some(named) => Some(named.most),
        None => None,
    }
}

// A refusal of what a key of the text says.
fn refused<R: AllocGlobal>(rt: &R, fault: SourceFault, path: &str, text: &str) -> Stop {
    match Word::new(rt.alloc(), path) {
        Ok(path) => Stop::Source(SourceRefusal::of(Refusal::Fault(fault, path), text)),
        Err(_) => Stop::End(End::Memory),
    }
}

// The zone that a form of times names; those that name none have their offset in the text.
fn zone_of<R: Files + AllocGlobal>(
    rt: &R,
    text: &str,
    form: &FormDescription,
) -> Result<Zone, Stop> {
    match form {
        FormDescription::Local { zone, .. } => zone_named(rt, text, zone.as_str()),
        _ => Ok(Zone::Utc),
    }
}

// The zone of a name.
fn zone_named<R: Files + AllocGlobal>(rt: &R, text: &str, name: &str) -> Result<Zone, Stop> {
    if name == "UTC" {
        return Ok(Zone::Utc);
    }
    if name.starts_with("/") || name.contains("..") {
        return Err(refused(rt, SourceFault::BadWord, "time.zone", text));
    }
    let path = format!(in rt.alloc(); "{ZONES}{name}")?;
    match fs::read(rt, path.as_str()) {
        Ok(bytes) => zone_in(rt, text, &bytes),
        Err(error) => match error.kind() {
            ErrorKind::OutOfMemory => Err(Stop::End(End::Memory)),
            _ => Err(refused(rt, SourceFault::BadWord, "time.zone", text)),
        },
    }
}

// The zone that a file's bytes have.
fn zone_in<R: AllocGlobal>(rt: &R, text: &str, bytes: &[u8]) -> Result<Zone, Stop> {
    match Zone::of_table(rt.alloc(), bytes) {
        Ok(zone) => Ok(zone),
        Err(ZoneFault::NoTable) => Err(refused(rt, SourceFault::BadWord, "time.zone", text)),
        Err(ZoneFault::Memory) => Err(Stop::End(End::Memory)),
    }
}

// The text of the names' file, which stands beside the source's; none where keys have no file.
fn names_of<R: Files + AllocGlobal>(
    rt: &R,
    source: &String,
    naming: &KeyNaming,
) -> Result<Vec<u8>, Stop> {
    match naming {
        KeyNaming::File { file, .. } => names_beside(rt, source.as_str(), file.as_str()),
        _ => Ok(Vec::new(rt.alloc())),
    }
}

// The bytes of a file beside another one.
fn names_beside<R: Files + AllocGlobal>(rt: &R, source: &str, file: &str) -> Result<Vec<u8>, Stop> {
    let path = path_beside(rt, source, file)?;
    match fs::read(rt, path.as_str()) {
        Ok(bytes) => Ok(bytes),
        Err(error) => Err(Stop::End(end_of(&error, End::ReadFailed))),
    }
}

// The path of a file beside another one.
fn path_beside<R: AllocGlobal>(rt: &R, source: &str, file: &str) -> Result<String, Stop> {
    let path = match source.rsplit_once("/") {
        Some((folder, _)) if !file.starts_with("/") => {
            format!(in rt.alloc(); "{folder}/{file}")?
        }
        _ => String::from_str(rt.alloc(), file)?,
    };
    Ok(path)
}
