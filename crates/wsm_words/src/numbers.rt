//! Numbers among the words.

ghost use Rattle.std.specs.Prelude.{◌≡◌, ◌<◌, ◌^◌, ℕ, None, IfSome};
ghost use Rattle.std.specs.Fmt.{decimal};

use itoa::Buffer;

/// The number that a word writes: in digits alone, with no zero in front but for 0 itself.
pub fn number_of(word: &str) -> Option<usize>
    ensures written { IfSome result (λ number. word.now ≡ decimal number) }
    ensures none { result ≡ None → (number : ℕ) → number < 2 ^ 64 → word.now ≡ decimal number → ⊥ }
{
    let number = word.parse::<usize>().ok()?;
    if Buffer::new().format(number) == word {
        Some(number)
    } else {
        None
    }
}
