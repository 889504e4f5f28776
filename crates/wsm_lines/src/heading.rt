//! What stands above the rows of a CSV log.
ghost use Rattle.std.specs.Prelude.{◌≡◌, IfOk, OnOk, Err, option_map, true};
ghost use Rattle.wsm_parts.specs.Csv.{cells_of, columns_of};
ghost use Rattle.wsm_record.specs.Schema.{Declared};
ghost use Rattle.wsm_lines.specs.declared.source.Source.{Source};
ghost use Rattle.wsm_lines.specs.Fault.{on_ok};
ghost use Rattle.wsm_lines.specs.Heading.{broken, heading_by, is_unread, of_cells, unread};
ghost use Rattle.wsm_lines.specs.Said.{event_by, first_fault, taken_below};
ghost use Rattle.wsm_lines.specs.Seen.{heading_seen};
ghost use Rattle.wsm_lines.specs.Text.{text_in};

use crate::fault::LineFault;
use crate::source::CsvForm;
use crate::text::text_in;
use std::alloc::{AllocError, Global};
use wsm_parts::{Span, Texts, find_cells, texts_of};
use wsm_values::Word;

/// The header of a CSV log.
#[derive(Drop)]
pub struct Header {
    /// Its line, without a carriage return.
    pub text: Vec<u8>,
    /// Where the names stand that the source asks for.
    pub columns: Vec<usize>,
    /// How many cells it has, and each row.
    pub count: usize,
}

/// What stands above the rows of a CSV log.
#[derive(Drop)]
pub enum Heading {
    /// No line was read.
    Unread,
    /// The first line was read, and is no header: so it is in all forms but CSV.
    Broken,
    /// A header.
    Known(Header),
}

// The columns that have these names.
fn columns_of(
    alloc: Global,
    names: &[Word],
    header: &Texts,
) -> Result<Option<Vec<usize>>, AllocError>
    ensures { IfOk result (λ c. option_map (λ v. v.items) c ≡ columns_of names.now header.now) }
{
    let mut columns = Vec::with_capacity(alloc, names.len())?;
    for name in names {
        match header.place_of(name.as_str().as_bytes()) {
            Some(place) => columns.push(place)?,
            None => return Ok(None),
        }
    }
    Ok(Some(columns))
}

// The heading that the text of a first line makes.
fn of_text(
    alloc: Global,
    form: &CsvForm,
    text: &[u8],
    spans: &mut Vec<Span>,
) -> Result<Heading, AllocError>
    ensures { IfOk result (λ h. heading_seen h ≡ of_cells form.now text.now (cells_of form.now.separator text.now)) }
{
    if !find_cells(form.separator, text, spans)? {
        return Ok(Heading::Broken);
    }
    let cells = texts_of(alloc, text, spans)?;
    match columns_of(alloc, form.names.items(), &cells)? {
        None => Ok(Heading::Broken),
        Some(columns) => {
            let text = text.to_vec(alloc)?;
            Ok(Heading::Known(Header {
                text,
                columns,
                count: spans.len(),
            }))
        }
    }
}

// The fault of a first line that makes this heading.
fn first_fault(heading: &Heading) -> LineFault
    ensures { result ≡ first_fault (heading_seen heading.now) }
{
    match heading {
        Heading::Unread | Heading::Broken => LineFault::BadHeader,
        Heading::Known(_) => LineFault::Header,
    }
}

/// Answers whether the next line of a log is the first, where its form has no header. From then on none is.
pub(crate) fn begin(heading: &mut Heading) -> bool
    ensures first { result ≡ is_unread (heading_seen heading.old) }
    ensures heading { heading_seen heading.new ≡ broken }
{
    let first = matches!(heading, Heading::Unread);
    *heading = Heading::Broken;
    first
}

/// Reads the first line of a CSV log, and tells its fault.
pub(crate) fn read_first(
    alloc: Global,
    form: &CsvForm,
    longest: usize,
    line: &[u8],
    heading: &mut Heading,
    spans: &mut Vec<Span>,
) -> Result<LineFault, AllocError>
    ensures fault { IfOk result (λ f. (s : Source) (d : Declared) →
        event_by s d (on_ok (text_in true longest line.now) (taken_below form.now unread)) ≡ Err f) }
    ensures heading { OnOk result (heading_seen heading.new ≡ heading_by form.now (text_in true longest line.now)) }
{
    match text_in(true, longest, line) {
        Err(fault) => {
            *heading = Heading::Broken;
            Ok(fault)
        }
        Ok(text) => {
            *heading = of_text(alloc, form, text.as_bytes(), spans)?;
            Ok(first_fault(heading))
        }
    }
}
