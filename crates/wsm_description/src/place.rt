//! Where in a text a key stands. No clause says it: a place is a help for whoever mends the text.

/// A place in a text: its line and its column, both from 1, the column in bytes.
#[derive(Clone, Copy, Debug, PartialEq, Eq)]
pub struct Position {
    pub line: u64,
    pub column: u64,
}

/// The place behind so many bytes of a text.
pub fn place_behind(text: &str, count: usize) -> Position {
    let mut place = Position { line: 1, column: 1 };
    for byte in text.as_bytes().iter().take(count) {
        place = place.behind(*byte);
    }
    place
}

impl Position {
    // The place behind one more byte.
    fn behind(self, byte: u8) -> Position {
        if byte == b'\n' {
            Position {
                line: self.line.saturating_add(1),
                column: 1,
            }
        } else {
            Position {
                line: self.line,
                column: self.column.saturating_add(1),
            }
        }
    }
}

// What is left of a dotted name behind its beginning.
fn behind<'p>(path: &'p str, start: &str) -> Option<&'p str> {
    if start.is_empty() {
        return Some(path);
    }
    let rest = path.strip_prefix(start)?;
    if rest.is_empty() {
        return Some(rest);
    }
    rest.strip_prefix(".")
}

// The name inside of quotes, if it stands in any.
fn unquoted(name: &str) -> &str {
    match name.strip_prefix("\"") {
        Some(rest) => match rest.strip_suffix("\"") {
            Some(inner) => inner,
            None => name,
        },
        None => name,
    }
}

// A search for a dotted name, from line to line.
#[derive(Clone, Copy)]
struct Search<'p> {
    path: &'p str,
    // What of the name is left inside of the table that the lines are in, if it leads there.
    inside: Option<&'p str>,
    // How many bytes of the name were left at the nearest key or table so far.
    left: usize,
    place: Option<Position>,
}

impl<'p> Search<'p> {
    fn new(path: &'p str) -> Search<'p> {
        Search {
            path,
            inside: Some(path),
            left: path.len(),
            place: None,
        }
    }

    // With a key or a table behind which so much of the name is left.
    fn reach(self, left: usize, place: Position) -> Search<'p> {
        if self.left <= left {
            return self;
        }
        Search {
            path: self.path,
            inside: self.inside,
            left,
            place: Some(place),
        }
    }

    // Inside of the table that leaves this of the name, or of none that it leads to.
    fn enter(self, inside: Option<&'p str>) -> Search<'p> {
        Search {
            path: self.path,
            inside,
            left: self.left,
            place: self.place,
        }
    }

    fn header(self, name: &str, place: Position) -> Search<'p> {
        match behind(self.path, name) {
            Some(rest) => self.enter(Some(rest)).reach(rest.len(), place),
            None => self.enter(None),
        }
    }

    fn key(self, name: &str, place: Position) -> Search<'p> {
        let Some(inside) = self.inside else {
            return self;
        };
        match behind(inside, name) {
            Some(rest) => self.reach(rest.len(), place),
            None => self,
        }
    }

    // Behind one more line.
    fn line(self, number: u64, line: &str) -> Search<'p> {
        let text = line.trim_start();
        let indent = line.len().saturating_sub(text.len()) as u64;
        let place = Position {
            line: number,
            column: indent.saturating_add(1),
        };
        if let Some(rest) = text.strip_prefix("[") {
            return match rest.split_once("]") {
                Some((name, _)) => self.header(name.trim(), place),
                None => self,
            };
        }
        match text.split_once("=") {
            Some((name, _)) => self.key(unquoted(name.trim()), place),
            None => self,
        }
    }
}

/// Where a key of this dotted name stands in a text, or else the table or the key that it would stand
/// in. Headers and keys are looked for at the beginnings of lines alone.
pub fn place_of(text: &str, path: &str) -> Option<Position> {
    let mut search = Search::new(path);
    let mut number = 0u64;
    for line in text.lines() {
        number = number.saturating_add(1);
        search = search.line(number, line);
    }
    search.place
}
