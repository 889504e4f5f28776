//! The names of any number of keys.

use crate::sources::SourceFile;
use std::alloc::Global;
use wsm_deal::SharesRefusal;
use wsm_inputs::End;
use wsm_job::{Stop, WordsFault, number_in};
use wsm_key_names::{KeyNames, KeyNamesRefusal};
use wsm_words::Named;

/// The file of the names: that of the words, else the one that a source names; none where the query has the keys.
pub fn file_of_names<R: AllocGlobal>(
    rt: &R,
    keys: &Named,
    source: Option<&SourceFile<'_>>,
) -> Result<Option<String>, Stop> {
    let named = match (&keys.file, source) {
        (Some(file), _) => Some(String::from_str(rt.alloc(), file.as_str())?),
        (None, Some(source)) => source.file_of_keys(rt)?,
        (None, None) => None,
    };
    match named {
        None if keys.takes_new || keys.most.is_some() => Err(Stop::Words(WordsFault::NoNames)),
        named => Ok(named),
    }
}

/// How many names there may be; those of the file alone where none is new.
pub fn most_of(keys: &Named) -> Result<u32, Stop> {
    let most = number_in(keys.most.as_ref(), "--most-keys")?;
    if !keys.takes_new {
        return match most {
            None => Ok(0),
            Some(_) => Err(Stop::Words(WordsFault::MostOfNone)),
        };
    }
    match most {
        None => Ok(u32::MAX),
        Some(most) => Ok(u32::try_from(most).unwrap_or(u32::MAX)),
    }
}

/// The names of a file's text. Where none may be new, there has to be one.
pub fn names_in(alloc: Global, text: &[u8], most: u32) -> Result<KeyNames, End> {
    match KeyNames::read(alloc, text) {
        Ok(names) if names.len() == 0 && most == 0 => Err(End::from(SharesRefusal::NoNames)),
        Ok(names) => Ok(names),
        Err(refusal) => Err(End::from(refusal_of(refusal))),
    }
}

// Why a file has no names, as it is told of files that keys are dealt by.
fn refusal_of(refusal: KeyNamesRefusal) -> SharesRefusal {
    match refusal {
        KeyNamesRefusal::BadName(line) => SharesRefusal::BadName(line),
        KeyNamesRefusal::DuplicateName(line) => SharesRefusal::DuplicateName(line),
        KeyNamesRefusal::Memory => SharesRefusal::Memory,
    }
}
