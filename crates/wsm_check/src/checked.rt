//! Checked queries.

ghost use Rattle.wsm_check.specs.Checks.{ArePartsOfChecked};
ghost use Rattle.wsm_check.specs.Seen.{seen_parts};

use crate::parts::Parts;

/// A query that no check refuses. Only [`check`](crate::check) can show of parts that they are of one.
#[derive(Drop)]
pub struct Checked {
    pub parts: Parts,
    // There is a query that no check refuses, and these are its parts.
    pub ghost of_checked: { ∥ ArePartsOfChecked (seen_parts parts) ∥₁ },
}
