//! What is counted, with what it means.

/// Whether a metric may fall.
#[derive(Clone, Copy, Debug, PartialEq, Eq)]
pub enum Kind {
    /// It only rises.
    Counter,
    /// It may fall too.
    Gauge,
}

/// What is counted of a word.
#[derive(Clone, Copy)]
pub struct Labelled<'a> {
    pub word: &'a str,
    pub value: u64,
}

/// The values of a metric.
#[derive(Clone, Copy)]
pub enum Values<'a> {
    /// One value.
    One(u64),
    /// One for each word of the label of this name.
    By(&'a str, &'a [Labelled<'a>]),
}

/// A metric: its name, what it means, and its values. A name is of letters, digits and `_`, and begins
/// with no digit; one that isn't is written as one that is.
#[derive(Clone, Copy)]
pub struct Metric<'a> {
    pub name: &'a str,
    pub help: &'a str,
    pub kind: Kind,
    pub values: Values<'a>,
}

impl<'a> Metric<'a> {
    ghost use Rattle.std.specs.Prelude.{◌≡◌};
    ghost use Rattle.wsm_metrics.specs.declared.metric.Kind.TheVariants.{Counter, Gauge};
    ghost use Rattle.wsm_metrics.specs.declared.metric.Values.TheVariants.{One};

    /// A count that only rises.
    pub fn counter(name: &'a str, help: &'a str, value: u64) -> Metric<'a>
        ensures { result ≡ record { name = name.entry; help = help.entry; kind = Counter; values = One value } }
    {
        Metric {
            name,
            help,
            kind: Kind::Counter,
            values: Values::One(value),
        }
    }

    /// A number that may fall.
    pub fn gauge(name: &'a str, help: &'a str, value: u64) -> Metric<'a>
        ensures { result ≡ record { name = name.entry; help = help.entry; kind = Gauge; values = One value } }
    {
        Metric {
            name,
            help,
            kind: Kind::Gauge,
            values: Values::One(value),
        }
    }
}
