//! Lines of an access log in its combined form.

ghost use Rattle.std.specs.Prelude.{◌≡◌, ◌<◌, ◌+◌, length, IfSome, option_map, false};
ghost use Rattle.wsm_parts.specs.Access.{place_from, quote_from, until, behind, in_brackets, up_to_quote, in_quotes, spaced, ended, ends, escapes, access_of, three_words, request_words, unless_dash};
ghost use Rattle.wsm_parts.specs.Seen.{access_seen, words_seen};

// Where a byte first stands.
fn place_of(end: u8, text: &[u8]) -> Option<usize>
    ensures value { result ≡ place_from 0 end text.now }
    ensures inside { IfSome result (λ i. i < length text.now) }
{
    for (i, byte) in text.iter().enumerate() {
        if *byte == end {
            return Some(i);
        }
    }
    None
}

// A quote with no backslash of its own.
fn ends(escaped: bool, byte: u8) -> bool
    ensures { result ≡ ends escaped byte }
{
    !escaped && byte == b'"'
}

// A backslash with none of its own.
fn escapes(escaped: bool, byte: u8) -> bool
    ensures { result ≡ escapes escaped byte }
{
    !escaped && byte == b'\\'
}

// Where the quote stands that ends a text.
fn quote_of(text: &[u8]) -> Option<usize>
    ensures value { result ≡ quote_from 0 false text.now }
    ensures inside { IfSome result (λ i. i < length text.now) }
{
    let mut escaped = false;
    for (i, byte) in text.iter().enumerate() {
        if ends(escaped, *byte) {
            return Some(i);
        }
        escaped = escapes(escaped, *byte);
    }
    None
}

// The text up to a byte, and what is behind that.
fn until(end: u8, text: &[u8]) -> Option<(&[u8], &[u8])>
    ensures { option_map (λ p. (p.0.now, p.1.now)) result ≡ until end text.now }
{
    let at = place_of(end, text)?;
    Some((&text[..at], &text[at + 1..]))
}

// The text behind a byte that it begins with.
fn behind(first: u8, text: &[u8]) -> Option<&[u8]>
    ensures { option_map (λ s. s.now) result ≡ behind first text.now }
{
    match text.split_first() {
        None => None,
        Some((byte, rest)) => if *byte == first { Some(rest) } else { None },
    }
}

fn in_brackets(text: &[u8]) -> Option<(&[u8], &[u8])>
    ensures { option_map (λ p. (p.0.now, p.1.now)) result ≡ in_brackets text.now }
{
    until(b']', behind(b'[', text)?)
}

fn up_to_quote(text: &[u8]) -> Option<(&[u8], &[u8])>
    ensures { option_map (λ p. (p.0.now, p.1.now)) result ≡ up_to_quote text.now }
{
    let at = quote_of(text)?;
    Some((&text[..at], &text[at + 1..]))
}

fn in_quotes(text: &[u8]) -> Option<(&[u8], &[u8])>
    ensures { option_map (λ p. (p.0.now, p.1.now)) result ≡ in_quotes text.now }
{
    up_to_quote(behind(b'"', text)?)
}

// What stands in brackets, and then a space.
fn bracketed(text: &[u8]) -> Option<(&[u8], &[u8])>
    ensures { option_map (λ p. (p.0.now, p.1.now)) result ≡ spaced (in_brackets text.now) }
{
    let (part, rest) = in_brackets(text)?;
    let rest = behind(b' ', rest)?;
    Some((part, rest))
}

// What stands in quotes, and then a space.
fn quoted(text: &[u8]) -> Option<(&[u8], &[u8])>
    ensures { option_map (λ p. (p.0.now, p.1.now)) result ≡ spaced (in_quotes text.now) }
{
    let (part, rest) = in_quotes(text)?;
    let rest = behind(b' ', rest)?;
    Some((part, rest))
}

// What stands in quotes, and then the end.
fn last_quoted(text: &[u8]) -> Option<&[u8]>
    ensures { option_map (λ s. s.now) result ≡ ended (in_quotes text.now) }
{
    let (part, rest) = in_quotes(text)?;
    match rest.split_first() {
        None => Some(part),
        Some(_) => None,
    }
}

// The words of a request.
#[derive(Clone, Copy)]
struct RequestWords<'l> {
    method: &'l [u8],
    path: &'l [u8],
    protocol: &'l [u8],
}

// The three words of a request, where it has three.
fn three_words(request: &[u8]) -> Option<RequestWords<'_>>
    ensures { option_map words_seen result ≡ three_words request.now }
{
    let (method, rest) = until(b' ', request)?;
    let (path, protocol) = until(b' ', rest)?;
    match place_of(b' ', protocol) {
        None => Some(RequestWords {
            method,
            path,
            protocol,
        }),
        Some(_) => None,
    }
}

// The three words of a request, or three without text.
fn request_words(request: &[u8]) -> RequestWords<'_>
    ensures { words_seen result ≡ request_words request.now }
{
    match three_words(request) {
        Some(words) => words,
        None => RequestWords {
            method: b"",
            path: b"",
            protocol: b"",
        },
    }
}

// The part, or no text where a dash alone stands for none.
fn unless_dash(part: &[u8]) -> &[u8]
    ensures { result.now ≡ unless_dash part.now }
{
    if part == b"-".as_slice() { b"" } else { part }
}

/// How many cells an access line has.
pub const ACCESS_CELLS: usize = 12;

/// The cells of an access line: host, ident, user, time, request, status, bytes, referer, agent, and the
/// request's method, path and protocol. A dash alone is an empty cell, and the last three are empty where
/// the request hasn't three words. Their bytes are the line's own: what is quoted keeps its backslashes.
#[derive(Clone, Copy)]
pub struct Access<'l> {
    cells: [&'l [u8]; ACCESS_CELLS],
}

impl<'l> Access<'l> {
    ghost use Rattle.std.specs.Prelude.{◌≡◌, [], slice_index_or};
    ghost use Rattle.wsm_parts.specs.Seen.{access_seen};

    /// The cell of a number, and an empty one past the last.
    pub fn at(&self, place: usize) -> &'l [u8]
        ensures { result.now ≡ slice_index_or (access_seen self.now) place [] }
    {
        if place < ACCESS_CELLS {
            self.cells[place]
        } else {
            b""
        }
    }
}

/// The cells of a line in the combined form.
pub fn access_of(line: &[u8]) -> Option<Access<'_>>
    ensures { option_map access_seen result ≡ access_of line.now }
{
    let (host, rest) = until(b' ', line)?;
    let (ident, rest) = until(b' ', rest)?;
    let (user, rest) = until(b' ', rest)?;
    let (time, rest) = bracketed(rest)?;
    let (request, rest) = quoted(rest)?;
    let (status, rest) = until(b' ', rest)?;
    let (bytes, rest) = until(b' ', rest)?;
    let (referer, rest) = quoted(rest)?;
    let agent = last_quoted(rest)?;
    let words = request_words(request);
    Some(Access {
        cells: [
            unless_dash(host),
            unless_dash(ident),
            unless_dash(user),
            unless_dash(time),
            unless_dash(request),
            unless_dash(status),
            unless_dash(bytes),
            unless_dash(referer),
            unless_dash(agent),
            unless_dash(words.method),
            unless_dash(words.path),
            unless_dash(words.protocol),
        ],
    })
}
