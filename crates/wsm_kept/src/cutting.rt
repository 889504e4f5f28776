//! Cutting rows in one pass.

ghost use Rattle.std.specs.Prelude.{◌≡◌, ◌∷◌, ◌++◌, ℕ, List, [], Option, true, IfErr, IfOk};
ghost use Rattle.wsm_program.specs.Program.{Program};
ghost use Rattle.wsm_machine.specs.Meaning.{query_of};
ghost use Rattle.wsm_csv.specs.Rows.{Follows};
ghost use Rattle.wsm_cut.specs.Cutter.{IsReady};
ghost use Rattle.wsm_kept.specs.Ends.{EndsBy};
ghost use Rattle.wsm_kept.specs.Pass.{Fits, IsAskedCut, Passes};

use crate::asked::Asked;
use crate::cut::Cut;
use crate::end::KeepEnd;
use crate::pass::Pass;
use std::alloc::Global;
use std::io::Read;
use wsm_csv::Rows;
use wsm_rules::Verified;

/// Cuts rows of which none was read. Each row is read once. A second run is over those that stay, but of sessions that
/// withdraw nothing, whose lines are counted as they are written. Where not all are cut, the row that was read last is the
/// first behind them: [`write_cut`] writes it and those behind it.
///
/// [`write_cut`]: crate::write_cut
///
/// # Errors
///
/// [`KeepEnd::BadHead`] and [`KeepEnd::OtherQuery`] by the first row, [`KeepEnd::OtherRows`] by those that it speaks of,
/// [`KeepEnd::Gone`] and [`KeepEnd::FewerLines`] by the lines that were taken; and where a read failed or memory was refused.
pub fn cut_rows<R: Read + Drop>(
    alloc: Global,
    verified: Verified,
    asked: Asked,
    rows: &mut Rows<R>,
) -> Result<Cut, KeepEnd>
    ensures cut { (known : Option (List ℕ)) → Follows R.remaining known [] rows.old →
        IfOk result (IsAskedCut R.remaining known (query_of verified) asked rows.new) }
    ensures ends { (known : Option (List ℕ)) → Follows R.remaining known [] rows.old →
        IfErr result (EndsBy R.remaining known (query_of verified) asked rows.new) }
{
    let mut pass = Pass::open(alloc, verified, asked)?;
    let at_end = take_rows(alloc, &mut pass, rows)?;
    pass.finish(alloc, at_end)
}

// Takes each row that is cut, and answers whether all are.
fn take_rows<R: Read + Drop>(
    alloc: Global,
    pass: &mut Pass,
    rows: &mut Rows<R>,
) -> Result<bool, KeepEnd>
    requires { IsReady pass.old.cutter }
    ensures asked { pass.new.asked ≡ pass.old.asked }
    ensures ready { IsReady pass.new.cutter }
    ensures passes { (known : Option (List ℕ)) (p : Program) → Follows R.remaining known [] rows.old → Fits p pass.old [] →
        IfOk result (Passes R.remaining known p pass.new rows.new) }
    ensures ends { (known : Option (List ℕ)) (p : Program) → Follows R.remaining known [] rows.old → Fits p pass.old [] →
        IfErr result (EndsBy R.remaining known (query_of p) pass.old.asked rows.new) }
{
    while rows.advance()? {
        if !pass.take(alloc, rows.row())? {
            return Ok(false);
        }
    }
    Ok(true)
}
