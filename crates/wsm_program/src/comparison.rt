//! The numbers that stand for comparisons in the bytes and the texts of programs.

ghost use Rattle.std.specs.Prelude.{◌≡◌};
ghost use Rattle.wsm_program.specs.Comparisons as spec;

use wsm_interval::Comparison;

// In the order of their numbers.
const COMPARISONS: [Comparison; 6] = [
    Comparison::Eq,
    Comparison::Ne,
    Comparison::Lt,
    Comparison::Le,
    Comparison::Gt,
    Comparison::Ge,
];

/// The number of a comparison.
pub fn comparison_number(comparison: Comparison) -> u8
    ensures { result ≡ spec.comparison_number comparison }
{
    match comparison {
        Comparison::Eq => 0,
        Comparison::Ne => 1,
        Comparison::Lt => 2,
        Comparison::Le => 3,
        Comparison::Gt => 4,
        Comparison::Ge => 5,
    }
}

/// The comparison of a number. `None` where no comparison has it.
#[tactic(auto, unfolding(crate::specs::Comparisons::comparison_of_number))]
pub fn comparison_of_number(number: u8) -> Option<Comparison>
    ensures { result ≡ spec.comparison_of_number number }
{
    COMPARISONS
        .iter()
        .copied()
        .find(|comparison| comparison_number(*comparison) == number)
}
