//! The end of a run over a log, as that of a run of a query.

ghost use Rattle.std.specs.Prelude.{◌≡◌};
ghost use Rattle.wsm_ends.specs.Ends.{end_of_log};

use wsm_inputs::End;
use wsm_log_rows::LogEnd;

/// The end of a run that a log's run ends with.
pub fn end_of_log(end: LogEnd) -> End
    ensures { result ≡ end_of_log end }
{
    match end {
        LogEnd::Memory => End::Memory,
        LogEnd::ReadFailed => End::ReadFailed,
        LogEnd::WriteFailed => End::WriteFailed,
    }
}
