//! Cutting the rows of a reader's bytes, and writing what comes of them.

ghost use Rattle.std.specs.Prelude.{◌≡◌, true, false, IfErr, IfOk, OnOk};
ghost use Rattle.wsm_machine.specs.Meaning.{query_of};
ghost use Rattle.wsm_kept.specs.Over.{CutBegun, CutWritten};

use crate::asked::Asked;
use crate::cutting::cut_rows;
use crate::end::KeepEnd;
use crate::head::Head;
use crate::write::write_cut;
use std::alloc::Global;
use std::io::Read;
use wsm_csv::{Device, Rows};
use wsm_rules::Verified;

/// Cuts the rows of a reader's bytes as [`cut_rows`] does, writes what stands in their place and the rows behind them as
/// [`write_cut`] does, and answers the head that stands in front.
///
/// # Errors
///
/// Those of [`cut_rows`], and nothing was written then; and those of [`write_cut`].
pub fn cut_over<R: Read + Drop, D: Device>(
    alloc: Global,
    verified: Verified,
    asked: Asked,
    reader: R,
    out: &mut D,
) -> Result<Head, KeepEnd>
    requires { D.has_failed out.old ≡ false }
    ensures written { IfOk result (CutWritten R.remaining (R.remaining reader) (query_of verified) asked (D.taken out.old) (D.taken out.new)) }
    ensures begun { IfErr result
        (CutBegun R.remaining (R.remaining reader) (query_of verified) asked (D.taken out.old) (D.taken out.new) (D.has_failed out.new)) }
    ensures flushed { OnOk result (D.is_flushed out.new ≡ true) }
{
    let mut rows = Rows::new(alloc, reader);
    let cut = cut_rows(alloc, verified, asked, &mut rows)?;
    write_cut(alloc, &cut, &mut rows, out)?;
    Ok(cut.head)
}
