//! WHERE, the columns and HAVING of a query.

ghost use Rattle.std.specs.Prelude.{◌≡◌, ◌≤◌, ◌+◌, [], length, map, option_map, IfOk, OnOk};
ghost use Rattle.wsm_query.specs.Tree.{Query as Text};
ghost use Rattle.wsm_query.specs.Seen.{seen, seen_expr};
ghost use Rattle.wsm_check.specs.Names.{schema_of};
ghost use Rattle.wsm_check.specs.Checks.{Judges, columns_refusal, condition_refusal, expressions_refusal};
ghost use Rattle.wsm_check.specs.Resolved.{AddsColumns, AreResolvedIfFew, ResolvesCondition};
ghost use Rattle.wsm_check.specs.Seen.{seen_folding, seen_term};

use crate::judging::want;
use crate::parts::Folding;
use crate::refusal::{CheckFault, CheckRefusal, Part};
use crate::resolve::{Place, boxed_as, resolve};
use crate::term::Term;
use crate::types::Around;
use std::alloc::Global;
use wsm_query::{Expr, Query};
use wsm_record::limits::{MAX_COLUMNS, MAX_FIELDS};
use wsm_record::{CellType, Schema};

/// What fires: the columns with their types, and what the accumulators fold.
#[derive(Drop)]
pub struct Fired {
    pub types: Vec<CellType>,
    pub columns: Vec<Term>,
    pub foldings: Vec<Folding>,
}

/// The expressions of a query.
#[derive(Drop)]
pub struct Expressions {
    pub condition: Option<Term>,
    pub fired: Fired,
    pub having: Option<Term>,
}

/// What the expressions of a query come to, or the first fault in them: WHERE, the columns, HAVING.
#[tactic(auto, using(crate::proofs::ChecksInOrder::steps))]
pub fn resolve_expressions(
    alloc: Global,
    schema: &Schema,
    query: &Query,
) -> Result<Expressions, CheckRefusal>
    requires fields { length schema.now.fields ≤ MAX_FIELDS }
    requires schema { schema.now ≡ schema_of (seen query.now) }
    ensures judged { Judges result (expressions_refusal (seen query.now)) }
    ensures resolved { IfOk result (λ r. AreResolvedIfFew (seen query.now) r) }
{
    let tested = Place {
        part: Part::Where,
        around: Around::InWhere,
    };
    let shown = Place {
        part: Part::Having,
        around: Around::InColumn,
    };
    let mut none = Vec::new(alloc);
    let mut fired = Fired {
        types: Vec::new(alloc),
        columns: Vec::new(alloc),
        foldings: Vec::new(alloc),
    };
    let condition = resolve_condition(alloc, schema, tested, &query.condition, &mut none)?;
    resolve_columns(alloc, schema, &query.columns, &mut fired)?;
    let having = resolve_condition(alloc, schema, shown, &query.having, &mut fired.foldings)?;
    Ok(Expressions {
        condition,
        fired,
        having,
    })
}

// A condition, which is BOOL.
fn resolve_condition(
    alloc: Global,
    schema: &Schema,
    place: Place,
    condition: &Option<Expr>,
    foldings: &mut Vec<Folding>,
) -> Result<Option<Term>, CheckRefusal>
    requires { length schema.now.fields ≤ MAX_FIELDS }
    ensures judged { (q : Text) → schema.now ≡ schema_of q → Judges result (condition_refusal q place.around place.part (option_map seen_expr condition.now)) }
    ensures resolved { (q : Text) → schema.now ≡ schema_of q →
        IfOk result (λ t. ResolvesCondition q (option_map seen_expr condition.now) (map seen_folding foldings.old.items) (map seen_folding foldings.new.items) (option_map seen_term t)) }
{
    let Some(test) = condition else {
        return Ok(None);
    };
    let term = boxed_as(alloc, schema, place, CellType::Bool, test, foldings)?;
    Ok(Some(Box::into_inner(term)))
}

// The columns behind others, 1 to 16 in all.
#[tactic(auto, using(crate::proofs::ChecksInOrder::steps))]
fn resolve_columns(
    alloc: Global,
    schema: &Schema,
    exprs: &[Expr],
    fired: &mut Fired,
) -> Result<(), CheckRefusal>
    requires fields { length schema.now.fields ≤ MAX_FIELDS }
    requires passed { length fired.old.types.items ≤ MAX_COLUMNS }
    ensures judged { (q : Text) → schema.now ≡ schema_of q → Judges result (columns_refusal q (length fired.old.types.items) (map seen_expr exprs.now)) }
    ensures resolved { (q : Text) → schema.now ≡ schema_of q → OnOk result (AddsColumns q (map seen_expr exprs.now) fired.old fired.new) }
{
    let passed = fired.types.len();
    let [first, rest @ ..] = exprs else {
        return want(passed > 0, CheckFault::Limit, Part::Column(1));
    };
    let part = Part::Column(passed as u64 + 1);
    want(passed < MAX_COLUMNS, CheckFault::Limit, part)?;
    let around = Around::InColumn;
    let place = Place { part, around };
    let (ty, term) = resolve(alloc, schema, place, first, &mut fired.foldings)?;
    fired.types.push(ty)?;
    fired.columns.push(term)?;
    resolve_columns(alloc, schema, rest, fired)
}
