//! Lines of JSON, of which the members are read that a source may ask for.
ghost use Rattle.std.specs.Prelude.{◌≡◌, ◌≢◌, ◌∷◌, ◌++◌, [], length, Some, None, Err, IfOk, MatchResult, OnOk, option_map};
ghost use Rattle.json.specs.Json.{document, max_depth, members, parse_map, value};
ghost use Rattle.json.specs.Reads.{skip_items};
ghost use Rattle.json.specs.Value.{members_view, value_view};
ghost use Rattle.wsm_lines.specs.Members.{passing, sifted};

use crate::name_filter::NameFilter;
use json::{Error, Invalid, MAX_DEPTH, Reader, Scratch, Token, Value};
use std::alloc::Global;

/// How many members there is room for at first.
const ROOM: usize = 8;

// Puts a member behind the others.
fn add<'a>(found: &mut Vec<(&'a str, Value<'a>)>, member: (&'a str, Value<'a>)) -> Result<(), Error>
    ensures ok { OnOk result (found.new.items ≡ found.old.items ++ member.entry ∷ []) }
    ensures valid { result ≢ Err Error.Invalid }
{
    if found.len() < found.capacity() {
        found.push_reserved(member);
        return Ok(());
    }
    match found.push(member) {
        Ok(()) => Ok(()),
        Err(_) => Err(Error::OutOfMemory),
    }
}

// Reads the members that pass, and passes over the others.
fn read_members<'a>(
    alloc: Global,
    filter: &NameFilter,
    reader: &mut Reader<'a>,
    depth: usize,
) -> Result<Vec<(&'a str, Value<'a>)>, Error>
    ensures ok { IfOk result (λ v. parse_map (passing filter.now.buckets) (members (value depth) (length reader.old) reader.old)
        ≡ Some (members_view v.items, reader.new)) }
    ensures invalid { result ≡ Err Error.Invalid → members (value depth) (length reader.old) reader.old ≡ None }
{
    let mut found = Vec::with_capacity(alloc, ROOM)?;
    while let Some(key) = reader.next_key()? {
        if filter.passes(key.as_bytes()) {
            let member = Value::read(alloc, reader, depth)?;
            add(&mut found, (key, member))?;
        } else {
            reader.skip_value(depth)?;
        }
    }
    Ok(found)
}

// Passes over the items of an array.
fn skip_items(reader: &mut Reader<'_>, depth: usize) -> Result<(), Invalid>
    ensures { MatchResult result (λ _. skip_items depth reader.old ≡ Some reader.new) (λ _. skip_items depth reader.old ≡ None) }
{
    while !reader.take_end_array() {
        reader.skip_value(depth)?;
    }
    Ok(())
}

// Reads the next value, with no members but those that pass.
fn read_value<'a>(
    alloc: Global,
    filter: &NameFilter,
    reader: &mut Reader<'a>,
) -> Result<Value<'a>, Error>
    ensures ok { IfOk result (λ v. parse_map (sifted filter.now.buckets) (value max_depth reader.old) ≡ Some (value_view v, reader.new)) }
    ensures invalid { result ≡ Err Error.Invalid → value max_depth reader.old ≡ None }
{
    let token = reader.next().ok_or(Error::Invalid)?;
    match token {
        Token::BeginObject => Ok(Value::Object(read_members(
            alloc,
            filter,
            reader,
            MAX_DEPTH - 1,
        )?)),
        Token::BeginArray => {
            skip_items(reader, MAX_DEPTH - 1)?;
            Ok(Value::Array(Vec::new(alloc)))
        }
        Token::String(text) => Ok(Value::String(text)),
        Token::Number(text) => Ok(Value::Number(text)),
        Token::Bool(truth) => Ok(Value::Bool(truth)),
        Token::Null => Ok(Value::Null),
        Token::EndObject | Token::EndArray | Token::Key(_) | Token::Bad => Err(Error::Invalid),
    }
}

/// Reads a text of JSON. Of an object the members are there whose names pass, and an array has no items.
#[tactic(auto, using(crate::proofs::PassingLemmas::whole, crate::proofs::PassingLemmas::trailing))]
pub(crate) fn sift<'a>(
    alloc: Global,
    filter: &NameFilter,
    text: &'a str,
    scratch: &'a mut Scratch,
) -> Result<Value<'a>, Error>
    ensures ok { IfOk result (λ v. option_map (sifted filter.now.buckets) (document text.now) ≡ Some (value_view v)) }
    ensures invalid { result ≡ Err Error.Invalid → document text.now ≡ None }
{
    let mut reader = Reader::new(text, scratch)?;
    let value = read_value(alloc, filter, &mut reader)?;
    if reader.next().is_some() {
        return Err(Error::Invalid);
    }
    Ok(value)
}
