//! The text of a line.

ghost use Rattle.std.specs.Prelude.{◌≡◌, option_map};
ghost use Rattle.std.specs.List.{list_any};
ghost use Rattle.wsm_row_watermarks.specs.Lines.{bare, begins_marked, is_odd, is_plain, text_of, unmarked};

/// How many bytes of a line are looked at: no row is as long.
pub const LONGEST: usize = 65_536;

// What editors and exports put in front of a text in UTF-8.
const BYTE_ORDER_MARK: [u8; 3] = [0xef, 0xbb, 0xbf];

// A line without one carriage return at its end.
fn bare(line: &[u8]) -> &[u8]
    ensures { result.now ≡ bare line.now }
{
    if line.is_empty() {
        return line;
    }
    let end = line.len() - 1;
    if line[end] == b'\r' {
        &line[..end]
    } else {
        line
    }
}

// A line without the byte order mark that may stand in front of the first.
fn unmarked(first: bool, line: &[u8]) -> &[u8]
    ensures { result.now ≡ unmarked first line.now }
{
    if !first {
        return line;
    }
    match line.strip_prefix(&BYTE_ORDER_MARK) {
        Some(text) => text,
        None => line,
    }
}

// Whether a byte is a quote, a carriage return or NUL.
fn is_odd(byte: u8) -> bool
    ensures { result ≡ is_odd byte }
{
    byte == b'"' || (byte == b'\r' || byte == 0)
}

// Whether a text begins as a byte order mark does.
fn begins_marked(text: &[u8]) -> bool
    ensures { result ≡ begins_marked text.now }
{
    !text.is_empty() && text[0] == BYTE_ORDER_MARK[0]
}

// Whether a quote, a carriage return or NUL is in a text.
fn has_odd(text: &[u8]) -> bool
    ensures { result ≡ list_any is_odd text.now }
{
    text.iter().any(|byte| is_odd(*byte))
}

// Whether a text is one row.
fn is_plain(text: &[u8]) -> bool
    ensures { result ≡ is_plain text.now }
{
    !begins_marked(text) && !has_odd(text)
}

/// The text of a line, which may be the first; none where it is too long or would not be one row.
pub fn text_of(first: bool, line: &[u8]) -> Option<&[u8]>
    ensures { option_map (λ t. t.now) result ≡ text_of first line.now }
{
    let line = bare(line);
    let text = unmarked(first, line);
    if line.len() <= LONGEST && is_plain(text) {
        Some(text)
    } else {
        None
    }
}
