//! The text of a line.
ghost use Rattle.std.specs.Prelude.{◌≡◌};
ghost use Rattle.std.specs.Result.{result_map_both};
ghost use Rattle.wsm_lines.specs.Text.{bare, text_in, unmarked, utf8_in};

use crate::fault::LineFault;

/// What editors and exports put in front of a text in UTF-8.
const BYTE_ORDER_MARK: [u8; 3] = [0xef, 0xbb, 0xbf];

/// A line without one carriage return at its end.
pub(crate) fn bare(line: &[u8]) -> &[u8]
    ensures { result.now ≡ bare line.now }
{
    if line.is_empty() {
        return line;
    }
    let end = line.len() - 1;
    if line[end] == b'\r' {
        &line[..end]
    } else {
        line
    }
}

// A line without the byte order mark that may stand in front of a log's first.
fn unmarked(first: bool, line: &[u8]) -> &[u8]
    ensures { result.now ≡ unmarked first line.now }
{
    if !first {
        return line;
    }
    match line.strip_prefix(&BYTE_ORDER_MARK) {
        Some(text) => text,
        None => line,
    }
}

fn utf8_in(text: &[u8]) -> Result<&str, LineFault>
    ensures { result_map_both (λ s. s.now) (λ e. e) result ≡ utf8_in text.now }
{
    match str::from_utf8(text) {
        Ok(text) => Ok(text),
        Err(_) => Err(LineFault::NotUtf8),
    }
}

/// The text of a line that isn't too long, and may be the first of its log.
pub(crate) fn text_in(first: bool, longest: usize, line: &[u8]) -> Result<&str, LineFault>
    ensures { result_map_both (λ s. s.now) (λ e. e) result ≡ text_in first longest line.now }
{
    if longest < line.len() {
        return Err(LineFault::TooLong);
    }
    utf8_in(unmarked(first, line))
}
