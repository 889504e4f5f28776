//! Taking tokens of which only so many may be taken: those that open levels, and operators of chains.

ghost use Rattle.std.specs.Prelude.{◌≡◌, ◌+◌, IfOk};
ghost use Rattle.wsm_query.specs.Grammar.{levels, opened};
ghost use Rattle.wsm_query.specs.Steps.{Reads, at_level, spend};

use wsm_tokens::{Reader, Stop};

/// Takes the token in sight as one of those that are left, or stops as too deep.
pub fn spend(reader: &mut Reader, left: usize) -> Result<usize, Stop>
    ensures reads { Reads (λ m. m) result reader.new (spend left) reader.old }
    ensures fewer { IfOk result (λ m. m + 1 ≡ left) }
{
    if left == 0 {
        return Err(reader.too_deep());
    }
    reader.advance();
    Ok(left - 1)
}

/// Takes a token that opens a level, of those that are left.
#[tactic(auto, using(crate::proofs::Levels::opens))]
pub fn open(reader: &mut Reader, left: usize) -> Result<usize, Stop>
    ensures reads { Reads at_level result reader.new (opened (levels left)) reader.old }
    ensures fewer { IfOk result (λ m. m + 1 ≡ left) }
{
    spend(reader, left)
}
