//! Windows and their shapes.

/// A stretch of event time, from its start on and before its end.
#[derive(Clone, Copy, Debug, PartialEq, Eq)]
pub struct Window {
    /// The first time inside.
    pub start: i64,
    /// The first time past it.
    pub end: i64,
}

/// How records are put into windows.
#[derive(Clone, Copy, Debug, PartialEq, Eq)]
pub enum Shape {
    /// One window after the other, each of this size.
    Fixed(i64),
    /// Windows of a size, one beginning at each multiple of a period.
    Sliding(i64, i64),
    /// A window for each run of records of a key whose times are less than a gap apart.
    Session(i64),
}

/// Which firing of a window a pane is.
#[derive(Clone, Copy, Debug, PartialEq, Eq)]
pub enum PaneKind {
    /// Before the watermark comes to the window's end.
    Early,
    /// As the watermark comes to the window's end.
    OnTime,
    /// On the turn of an admitted record, once the watermark has come to the window's end.
    Late,
    /// As the window expires.
    Final,
}
