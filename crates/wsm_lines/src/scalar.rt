//! Lines taken apart, and what stands at their places.
ghost use Rattle.std.specs.Prelude.{◌≡◌, option_map};
ghost use Rattle.std.specs.Str.{bytes_eq};
ghost use Rattle.json.specs.Find.{get, get_member};
ghost use Rattle.json.specs.Value.{members_view, value_view};
ghost use Rattle.wsm_lines.specs.Scalar.{found_at, of_cell, of_found, of_json, scalar_at};
ghost use Rattle.wsm_lines.specs.Seen.{scalar_seen, taken_seen};

use crate::source::Place;
use json::Value;
use wsm_parts::{Access, Texts};
use wsm_values::Word;

/// What stands at a place.
#[derive(Clone, Copy)]
pub enum Scalar<'a> {
    /// Nothing, also what JSON writes as null, and a cell without text.
    Absent,
    /// What has no text: an array or an object.
    Odd,
    /// A text.
    Text(&'a [u8]),
    /// What JSON itself writes as a number.
    Number(&'a [u8]),
}

/// A line taken apart.
#[derive(Drop)]
pub enum Taken<'a> {
    /// A value of JSON.
    Json(Value<'a>),
    /// The cells of an access log.
    Access(Access<'a>),
    /// The cells of the columns that a CSV source asks for, or of a row.
    Csv(&'a Texts),
}

// Whether two names are the same. It is a call of its own, so that none of its work is done for names of other lengths.
#[inline(never)]
fn is_same(key: &str, name: &str) -> bool
    ensures { result ≡ bytes_eq key.now name.now }
{
    key == name
}

// Whether two names are the same. Most have other lengths, which is told here.
fn is_named(key: &str, name: &str) -> bool
    ensures { result ≡ bytes_eq key.now name.now }
{
    key.len() == name.len() && is_same(key, name)
}

// The last member of that name.
#[inline(always)]
fn last_named<'v, 'a>(members: &'v Vec<(&'a str, Value<'a>)>, name: &str) -> Option<&'v Value<'a>>
    ensures { option_map (λ v. value_view v.now) result ≡ get_member name.now (members_view members.now.items) }
{
    let mut left = members.len();
    while left > 0 {
        left -= 1;
        let member = &members[left];
        if is_named(member.0, name) {
            return Some(&member.1);
        }
    }
    None
}

// The member of that name.
#[inline(always)]
fn member<'v, 'a>(value: &'v Value<'a>, name: &Word) -> Option<&'v Value<'a>>
    ensures { option_map (λ v. value_view v.now) result ≡ get name.now (value_view value.now) }
{
    if let Value::Object(members) = value {
        last_named(members, name.as_str())
    } else {
        None
    }
}

// The value that members lead to, however many they are.
fn found_below<'v, 'a>(value: &'v Value<'a>, names: &[Word]) -> Option<&'v Value<'a>>
    ensures { option_map (λ v. value_view v.now) result ≡ found_at names.now (value_view value.now) }
{
    match names.split_first() {
        None => Some(value),
        Some((name, rest)) => found_below(member(value, name)?, rest),
    }
}

// The value that members lead to: mostly one, which is found here.
#[inline(always)]
fn found_at<'v, 'a>(value: &'v Value<'a>, names: &[Word]) -> Option<&'v Value<'a>>
    ensures { option_map (λ v. value_view v.now) result ≡ found_at names.now (value_view value.now) }
{
    match names.split_first() {
        None => Some(value),
        Some((name, rest)) => {
            let found = member(value, name)?;
            if rest.is_empty() {
                Some(found)
            } else {
                found_below(found, rest)
            }
        }
    }
}

// What a value of JSON is.
#[inline(always)]
fn of_json<'v>(value: &'v Value<'_>) -> Scalar<'v>
    ensures { scalar_seen result ≡ of_json (value_view value.now) }
{
    match value {
        Value::Null => Scalar::Absent,
        Value::Bool(true) => Scalar::Text("true".as_bytes()),
        Value::Bool(false) => Scalar::Text("false".as_bytes()),
        Value::Number(text) => Scalar::Number(text.as_bytes()),
        Value::String(text) => Scalar::Text(text.as_bytes()),
        Value::Array(_) | Value::Object(_) => Scalar::Odd,
    }
}

// What members lead to.
#[inline(always)]
fn json_at<'v>(value: &'v Value<'_>, names: &[Word]) -> Scalar<'v>
    ensures { scalar_seen result ≡ of_found (found_at names.now (value_view value.now)) }
{
    match found_at(value, names) {
        None => Scalar::Absent,
        Some(found) => of_json(found),
    }
}

// What a cell is.
fn of_cell(cell: &[u8]) -> Scalar<'_>
    ensures { scalar_seen result ≡ of_cell cell.now }
{
    match cell.split_first() {
        None => Scalar::Absent,
        Some(_) => Scalar::Text(cell),
    }
}

/// What stands at a place of a line.
#[inline(always)]
pub(crate) fn scalar_at<'t>(taken: &'t Taken<'_>, place: &Place) -> Scalar<'t>
    ensures { scalar_seen result ≡ scalar_at (taken_seen taken.now) place.now }
{
    match (taken, place) {
        (Taken::Json(value), Place::Path(names)) => json_at(value, names.items()),
        (Taken::Access(access), Place::Column(place)) => of_cell(access.at(*place)),
        (Taken::Csv(texts), Place::Column(place)) => of_cell(texts.at(*place)),
        (Taken::Json(_), Place::Column(_)) => Scalar::Absent,
        (Taken::Access(_), Place::Path(_)) => Scalar::Absent,
        (Taken::Csv(_), Place::Path(_)) => Scalar::Absent,
    }
}
