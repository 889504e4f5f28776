//! What a query that passed the checks has, put together.

ghost use Rattle.std.specs.Prelude.{◌≡◌};
ghost use Rattle.wsm_query.specs.Seen.{seen};
ghost use Rattle.wsm_check.specs.Names.{schema_of};
ghost use Rattle.wsm_check.specs.Parts.{parts_of};
ghost use Rattle.wsm_check.specs.Resolved.{AreResolved};
ghost use Rattle.wsm_check.specs.Seen.{seen_parts};

use crate::expressions::Expressions;
use crate::parts::Parts;
use wsm_query::Query;
use wsm_record::Schema;

/// What the query has: its schema, its numbers, and the terms of its expressions.
pub fn parts_of(query: &Query, schema: Schema, expressions: Expressions) -> Parts
    requires schema { schema ≡ schema_of (seen query.now) }
    requires resolved { AreResolved (seen query.now) expressions }
    ensures { seen_parts result ≡ parts_of (seen query.now) }
{
    Parts {
        schema,
        clock: query.clock,
        budget: query.budget,
        output: query.output,
        condition: expressions.condition,
        foldings: expressions.fired.foldings,
        types: expressions.fired.types,
        columns: expressions.fired.columns,
        having: expressions.having,
    }
}
