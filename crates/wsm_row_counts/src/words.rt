//! How often each word came.

ghost use Rattle.std.specs.Prelude.{◌≡◌, ◌++◌, ◌∷◌, [], true, false, OnOk, map};
ghost use Rattle.wsm_row_counts.specs.Counted.{counted};
ghost use Rattle.wsm_row_counts.specs.Seen.{count_seen, words_seen};

use std::alloc::{AllocError, Global};
use wsm_metrics::{Kind, Labelled, Metric, Values, metrics_text};

/// A word, and how often it came, at most the greatest `u64`.
#[derive(Drop)]
pub struct Count {
    pub word: String,
    pub times: u64,
}

/// How often each word came, in the order in which they came first.
#[derive(Drop)]
pub struct Words {
    counts: Vec<Count>,
    alloc: Global,
}

impl Words {
    /// No word came.
    pub fn new(alloc: Global) -> Words
        ensures { words_seen result ≡ [] }
    {
        Words {
            counts: Vec::new(alloc),
            alloc,
        }
    }

    /// The words, and how often each came.
    pub fn counts(&self) -> &[Count]
        ensures { map count_seen result.now ≡ words_seen self.now }
    {
        &self.counts
    }

    /// Counts a word.
    ///
    /// # Errors
    ///
    /// Memory was refused.
    pub fn count(&mut self, word: &str) -> Result<(), AllocError>
        ensures { OnOk result (words_seen self.new ≡ counted (words_seen self.old) word.now) }
    {
        if raise(&mut self.counts, word) {
            return Ok(());
        }
        let word = String::from_str(self.alloc, word)?;
        Ok(self.counts.push(Count { word, times: 1 })?)
    }

    /// Adds the counter of this name, with a value for each word, to a text that Prometheus reads.
    ///
    /// # Errors
    ///
    /// Memory was refused.
    pub fn write(&self, name: &str, help: &str, text: &mut Vec<u8>) -> Result<(), AllocError> {
        let mut values = Vec::new(self.alloc);
        for count in self.counts.iter() {
            values.push(Labelled {
                word: count.word.as_str(),
                value: count.times,
            })?;
        }
        let told = text_by(self.alloc, name, help, &values)?;
        text.extend_from_slice(&told)
    }
}

// Counts a word among those that came, if it is one of them.
fn raise(counts: &mut [Count], word: &str) -> bool
    ensures known { result ≡ true → map count_seen counts.new ≡ counted (map count_seen counts.old) word.now }
    ensures kept { result ≡ false → map count_seen counts.new ≡ map count_seen counts.old }
    ensures last { result ≡ false → counted (map count_seen counts.old) word.now ≡ map count_seen counts.old ++ record { word = word.now; times = 1 } ∷ [] }
{
    match counts.split_first_mut() {
        Some((first, rest)) => {
            if first.word.as_str() == word {
                first.times = first.times.saturating_add(1);
                true
            } else {
                raise(rest, word)
            }
        }
        None => false,
    }
}

// The text of a counter that has a value for each word.
fn text_by<'a>(
    alloc: Global,
    name: &'a str,
    help: &'a str,
    values: &'a [Labelled<'a>],
) -> Result<Vec<u8>, AllocError> {
    let metrics = [Metric {
        name,
        help,
        kind: Kind::Counter,
        values: Values::By("word", values),
    }];
    metrics_text(alloc, &metrics)
}
