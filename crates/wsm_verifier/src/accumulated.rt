//! What accumulators may hold.

ghost use Rattle.std.specs.Prelude.{◌≡◌, ◌*ℤ◌, true, Some, length, IfOk};
ghost use Rattle.std.specs.Int.{int_max, int_min};
ghost use Rattle.wsm_record.specs.Schema.{is_i64};
ghost use Rattle.wsm_rules.specs.Accumulated.{StayAll, stays};
ghost use Rattle.wsm_rules.specs.Rules as rules;
ghost use Rattle.wsm_rules.specs.Rules.{accumulated_each, and_then};

use std::alloc::{AllocError, Global};
use wsm_interval::Interval;
use wsm_record::Kind;

/// The range of each accumulator, by what is folded into it.
pub(crate) fn accumulator_ranges(
    alloc: Global,
    records: i64,
    kinds: &[Kind],
    folded: &[Option<Interval>],
) -> Result<Vec<Option<Interval>>, AllocError>
    requires long { length folded.now ≡ length kinds.now }
    requires stay { StayAll records kinds.now folded.now }
    ensures { IfOk result (λ ranges. ranges.items ≡ accumulated_each records kinds.now folded.now) }
{
    let mut ranges = Vec::with_capacity(alloc, kinds.len())?;
    for (place, kind) in kinds.iter().enumerate() {
        ranges.push(range_of(records, *kind, folded[place]))?;
    }
    Ok(ranges)
}

fn range_of(records: i64, kind: Kind, folded: Option<Interval>) -> Option<Interval>
    requires { stays records kind folded ≡ true }
    ensures { result ≡ and_then (rules.accumulated records kind) folded }
{
    accumulated(records, kind, folded?)
}

// The range over 1 to as many values as there are records, each in an interval.
fn accumulated(records: i64, kind: Kind, values: Interval) -> Option<Interval>
    requires { stays records kind (Some values) ≡ true }
    ensures { result ≡ rules.accumulated records kind values }
{
    match kind {
        Kind::Sum => Some(Interval {
            lo: least_sum(records, values.lo),
            hi: greatest_sum(records, values.hi),
        }),
        Kind::Min | Kind::Max => Some(values),
        Kind::Any | Kind::All => None,
    }
}

fn least_sum(records: i64, least: i64) -> i64
    requires { is_i64 (records *ℤ least) ≡ true }
    ensures { result ≡ int_min least (records *ℤ least) }
{
    least.min(records * least)
}

fn greatest_sum(records: i64, greatest: i64) -> i64
    requires { is_i64 (records *ℤ greatest) ≡ true }
    ensures { result ≡ int_max greatest (records *ℤ greatest) }
{
    greatest.max(records * greatest)
}
