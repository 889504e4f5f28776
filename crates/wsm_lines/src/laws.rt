//! What holds of each line.
ghost use Rattle.std.specs.Prelude.{◌≡◌, ◌≤◌, ℕ, List, length, map, IfSome};
ghost use Rattle.wsm_record.specs.Schema.{Declared};
ghost use Rattle.wsm_lines.specs.declared.source.Source.{Source};
ghost use Rattle.wsm_lines.specs.Key.{key_text_of};
ghost use Rattle.wsm_lines.specs.Said.{clock_of, identifier_of, said_of};
ghost use Rattle.wsm_lines.specs.Text.{kept};

/// What a line says, which text its key has, which identifier and which clock it names is told by its beginning, one that is as long as a line
/// may be and two bytes more, and by as much of each line before it. So no more has to be kept of a line
/// that is too long.
pub fn beginnings_tell()
    ensures all { (s : Source) (d : Declared) (before : List (List ℕ)) (line : List ℕ) →
        said_of s d (map (kept s.longest) before) (kept s.longest line) ≡ said_of s d before line }
    ensures line { (s : Source) (d : Declared) (before : List (List ℕ)) (line : List ℕ) → said_of s d before (kept s.longest line) ≡ said_of s d before line }
    ensures identifiers { (s : Source) (before : List (List ℕ)) (line : List ℕ) →
        identifier_of s (map (kept s.longest) before) (kept s.longest line) ≡ identifier_of s before line }
    ensures clocks { (s : Source) (before : List (List ℕ)) (line : List ℕ) →
        clock_of s (map (kept s.longest) before) (kept s.longest line) ≡ clock_of s before line }
    ensures keys { (s : Source) (before : List (List ℕ)) (line : List ℕ) →
        key_text_of s (map (kept s.longest) before) (kept s.longest line) ≡ key_text_of s before line }
{}

/// An identifier has 1 to 255 bytes.
pub fn identifiers_are_few_bytes()
    ensures some { (s : Source) (before : List (List ℕ)) (line : List ℕ) → IfSome (identifier_of s before line) (λ i. 1 ≤ length i) }
    ensures few { (s : Source) (before : List (List ℕ)) (line : List ℕ) → IfSome (identifier_of s before line) (λ i. length i ≤ 255) }
{}
