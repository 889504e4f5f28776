//! Checked queries are made of queries that pass all checks.

ghost use Rattle.std.specs.Prelude.{◌≡◌, ◌≤◌, ◌⊎◌, Some, length, true, IfOk, IfErr, OnOk};
ghost use Rattle.wsm_windows.specs.Limits.{is_shape};
ghost use Rattle.wsm_admission.specs.Clock.{is_limited};
ghost use Rattle.wsm_query.specs.Seen.{seen};
ghost use Rattle.wsm_check.specs.Checks.{IsChecked, Judges, refusal, rest_refusal};
ghost use Rattle.wsm_check.specs.Names.{schema_of};
ghost use Rattle.wsm_check.specs.Resolved.{AreResolved};
ghost use Rattle.wsm_check.specs.Spelt.{IsSpelt};
ghost use Rattle.wsm_check.specs.Parts.{parts_of};
ghost use Rattle.wsm_check.specs.Seen.{seen_parts};

use crate::assemble::parts_of;
use crate::checked::Checked;
use crate::code::{judge_sizes, within};
use crate::expressions::{Expressions, resolve_expressions};
use crate::judging::{judge_declared, judge_numbers};
use crate::parts::Parts;
use crate::refusal::{CheckRefusal, CodeLimit};
use std::alloc::Global;
use wsm_query::Query;
use wsm_record::Schema;
use wsm_record::limits::{MAX_ACCUMULATORS, MAX_FIELDS};

/// The query as a checked one, or the first check that refuses it. A query that isn't taken is
/// handed back.
pub fn check(alloc: Global, query: Query) -> Result<Checked, (Query, CheckRefusal)>
    ensures checked { IfOk result (λ _. IsChecked (seen query)) }
    ensures spelt { IfOk result (λ _. IsSpelt (seen query)) }
    ensures parts { IfOk result (λ c. seen_parts c.parts ≡ parts_of (seen query)) }
    ensures refused { IfErr result (λ e. (e.1 ≡ CheckRefusal.Memory) ⊎ (refusal (seen query) ≡ Some e.1)) }
    ensures handed_back { IfErr result (λ e. e.0 ≡ query) }
{
    match checked_parts(alloc, &query) {
        Ok(parts) => Ok(Checked { parts }),
        Err(refusal) => Err((query, refusal)),
    }
}

// What a query that passes all checks has: its declarations, its numbers, its expressions as terms,
// and that their code fits, judged in this order.
#[tactic(auto, using(crate::proofs::ChecksInOrder::steps))]
fn checked_parts(alloc: Global, query: &Query) -> Result<Parts, CheckRefusal>
    ensures judged { Judges result (refusal (seen query.now)) }
    ensures spelt { OnOk result (IsSpelt (seen query.now)) }
    ensures parts { IfOk result (λ p. seen_parts p ≡ parts_of (seen query.now)) }
{
    let schema = judge_declared(alloc, query)?;
    let expressions = judge_rest(alloc, &schema, query)?;
    let parts = parts_of(query, schema, expressions);
    judge_sizes(&parts)?;
    Ok(parts)
}

// The checks behind those of what is declared, up to the accumulators. The schema stays with the caller, so that no way out
// from here lets it go.
#[tactic(auto, using(crate::proofs::ChecksInOrder::steps))]
fn judge_rest(alloc: Global, schema: &Schema, query: &Query) -> Result<Expressions, CheckRefusal>
    requires fields { length query.now.fields.items ≤ MAX_FIELDS }
    requires schema { schema.now ≡ schema_of (seen query.now) }
    ensures judged { Judges result (rest_refusal (seen query.now)) }
    ensures resolved { IfOk result (λ r. AreResolved (seen query.now) r) }
    ensures clock { OnOk result (is_limited query.now.clock ≡ true) }
    ensures shape { OnOk result (is_shape query.now.output.shape ≡ true) }
{
    judge_numbers(query)?;
    let expressions = resolve_expressions(alloc, schema, query)?;
    let count = expressions.fired.foldings.len() as u64;
    within(CodeLimit::Accumulators, count, MAX_ACCUMULATORS as u64)?;
    Ok(expressions)
}
