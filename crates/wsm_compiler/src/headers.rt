//! The header of a program.

ghost use Rattle.std.specs.Prelude.{◌≡◌, map, IfOk};
ghost use Rattle.wsm_program.specs.View.{header_of};
ghost use Rattle.wsm_check.specs.Seen.{seen_folding, seen_parts};
ghost use Rattle.wsm_compiler.specs.Program as spec;
ghost use Rattle.wsm_compiler.specs.Program.{header_stating};

use std::alloc::{AllocError, Global};
use wsm_check::{Folding, Parts};
use wsm_program::{Costs, Header};
use wsm_record::Kind;

/// The header of a program that states a budget.
pub fn header(alloc: Global, parts: Parts, budget: Costs) -> Result<Header, AllocError>
    ensures { IfOk result (λ header. header_of header ≡ header_stating (seen_parts parts) budget) }
{
    let kinds = kinds(alloc, &parts.foldings)?;
    Ok(Header {
        schema: parts.schema,
        clock: parts.clock,
        shape: parts.output.shape,
        mode: parts.output.mode,
        early: every(parts.output.early),
        late: every(parts.output.late),
        form: parts.output.form,
        kinds,
        columns: parts.types,
        budget,
    })
}

// After how many records a firing comes, or 0 where none does.
fn every(count: Option<i64>) -> i64
    ensures { result ≡ spec.every count }
{
    count.unwrap_or(0)
}

// How the accumulators fold.
fn kinds(alloc: Global, foldings: &[Folding]) -> Result<Vec<Kind>, AllocError>
    ensures { IfOk result (λ kinds. kinds.items ≡ map (λ f. f.kind) (map seen_folding foldings.now)) }
{
    let mut kinds = Vec::with_capacity(alloc, foldings.len())?;
    for folding in foldings {
        kinds.push(folding.kind)?;
    }
    Ok(kinds)
}
