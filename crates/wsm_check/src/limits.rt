//! The ranges of the numbers of a query.

ghost use Rattle.std.specs.Prelude.{◌≡◌};
ghost use Rattle.wsm_record.specs.Schema.{is_within};
ghost use Rattle.wsm_check.specs.Checks.{budget_fits, every_fits, is_cost};

use wsm_query::Budget;
use wsm_record::limits::{MAX_PANES, MAX_STATED};
use wsm_windows::is_size;

// What BUDGET may state, as numbers of a query, which have a sign.
const MAX_COST: i64 = MAX_STATED as i64;

const MAX_HELD: i64 = MAX_PANES as i64;

/// Whether the numbers of BUDGET are in range.
pub fn budget_fits(budget: Option<Budget>) -> bool
    ensures { result ≡ budget_fits budget }
{
    match budget {
        None => true,
        Some(b) => {
            is_cost(b.per_record) && is_cost(b.per_pane) && is_within(1, MAX_HELD, b.held)
        }
    }
}

/// Whether the count of a trigger is in range.
pub fn every_fits(every: Option<i64>) -> bool
    ensures { result ≡ every_fits every }
{
    match every {
        None => true,
        Some(count) => is_size(count),
    }
}

fn is_cost(number: i64) -> bool
    ensures { result ≡ is_cost number }
{
    is_within(1, MAX_COST, number)
}

fn is_within(low: i64, high: i64, number: i64) -> bool
    ensures { result ≡ is_within low high number }
{
    low <= number && number <= high
}
