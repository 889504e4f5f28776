//! The RECORDS of a run that goes on.

ghost use Rattle.std.specs.Prelude.{◌≡◌, ◌+◌, ◌≤◌, IfSome, pos, unsigned_abs};

/// The RECORDS with which so many are `left` behind those `taken`; none where that is more than `records`.
pub fn fewer_records(left: u64, taken: u64, records: i64) -> Option<i64>
    ensures { IfSome result (λ n. (n ≡ pos (left + taken)) × ((left + taken) ≤ unsigned_abs records)) }
{
    let fewer = left.checked_add(taken)?;
    if fewer <= records.unsigned_abs() {
        i64::try_from(fewer).ok()
    } else {
        None
    }
}
