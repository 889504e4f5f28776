//! The reserved words.

ghost use Rattle.std.specs.Prelude.{◌≡◌, ◌∷◌, ℕ, List, bytes_eq};
ghost use Rattle.std.specs.List.{list_any};
ghost use Rattle.wsm_record.specs.Name.{is_between, is_reserved};

/// The words of query texts, which are no names.
const RESERVED: [&str; 49] = [
    "KEYS",
    "KEY",
    "FIELD",
    "INT",
    "BOOL",
    "ENUM",
    "START",
    "SKEW",
    "LATENESS",
    "RECORDS",
    "BUDGET",
    "RECORD",
    "PANE",
    "HELD",
    "SELECT",
    "WHERE",
    "HAVING",
    "WINDOW",
    "FIXED",
    "SLIDING",
    "SESSION",
    "EVERY",
    "ACCUMULATING",
    "DISCARDING",
    "RETRACTING",
    "EARLY",
    "LATE",
    "EMIT",
    "PANES",
    "ISTREAM",
    "DSTREAM",
    "RSTREAM",
    "AND",
    "OR",
    "NOT",
    "TRUE",
    "FALSE",
    "COUNT",
    "SUM",
    "MIN",
    "MAX",
    "ANY",
    "ALL",
    "IF",
    "THEN",
    "ELSE",
    "END",
    "FROM",
    "SOURCES",
];

/// Whether a word is reserved.
pub(crate) fn is_reserved(word: &[u8]) -> bool
    ensures { result ≡ is_reserved word.now }
{
    // Each begins with a capital, and most names don't.
    begins_with_capital(word) && is_one_of(word, &RESERVED)
}

fn begins_with_capital(word: &[u8]) -> bool
    ensures { (first : ℕ) (rest : List ℕ) → word.now ≡ first ∷ rest → result ≡ is_between 65 90 first }
{
    match word {
        [first, ..] => first.is_ascii_uppercase(),
        [] => false,
    }
}

fn is_one_of(word: &[u8], words: &[&str]) -> bool
    ensures { result ≡ list_any (λ w. bytes_eq word.now w.now) words.now }
{
    words.iter().any(|w| word == w.as_bytes())
}
