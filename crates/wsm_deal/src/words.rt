//! The bytes of a key as two numbers.

ghost use Rattle.std.specs.Prelude.{◌≡◌, IfSome};
ghost use Rattle.wsm_deal.specs.KeyGuesses.{worth_of};
ghost use Rattle.wsm_record.specs.Guesses.{spelled};

use wsm_record::marks::word_of;

/// A text of one to fifteen bytes as two numbers, which no other text has: of up to seven bytes its word and 0,
/// of more the first eight and the word of the others.
#[derive(Clone, Copy)]
pub(crate) struct Words {
    pub(crate) head: u64,
    pub(crate) tail: u64,
}

/// The words that no text has.
pub(crate) const NO_WORDS: Words = Words { head: 0, tail: 0 };

impl Words {
    ghost use Rattle.std.specs.Prelude.{◌≡◌, true};
    ghost use Rattle.wsm_deal.specs.KeyGuesses.{worth_of};

    /// Those of a text that has one word.
    pub(crate) fn of_word(word: u64) -> Words
        ensures { worth_of result ≡ word }
    {
        Words {
            head: word,
            tail: 0,
        }
    }

    /// Whether they are those of the same text.
    pub(crate) fn are(&self, others: Words) -> bool
        ensures { result ≡ true → worth_of self.now ≡ worth_of others }
    {
        self.head == others.head && self.tail == others.tail
    }

    /// A number made of both.
    pub(crate) fn mark(&self) -> u64 {
        self.head ^ self.tail
    }
}

/// The words of a text, where it has some.
pub(crate) fn words_of(text: &[u8]) -> Option<Words>
    ensures { IfSome result (λ words. spelled text.now ≡ worth_of words) }
{
    match word_of(text) {
        Some(word) => Some(Words::of_word(word)),
        None => long_words_of(text),
    }
}

/// The words of a text of eight to fifteen bytes.
#[inline(always)]
pub(crate) fn long_words_of(text: &[u8]) -> Option<Words>
    ensures { IfSome result (λ words. spelled text.now ≡ worth_of words) }
{
    match text {
        [a, b, c, d, e, f, g, h, rest @ ..] => {
            let tail = tail_of(rest)?;
            let head = u64::from_le_bytes([*a, *b, *c, *d, *e, *f, *g, *h]);
            Some(Words { head, tail })
        }
        _ => None,
    }
}

// The word of what is behind the first eight bytes, which may be nothing.
#[inline(always)]
fn tail_of(rest: &[u8]) -> Option<u64>
    ensures { IfSome result (λ tail. spelled rest.now ≡ tail) }
{
    if rest.is_empty() {
        return Some(1);
    }
    word_of(rest)
}
