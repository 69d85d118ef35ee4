// Why a report ends early.
ghost use Rattle.flux_core.specs.CoreView.{CoreView};
ghost use Rattle.look_command.specs.Reports.{HasEnded};
ghost use Rattle.run_journal.specs.declared.lined.Lined.{Lined};
ghost use Rattle.run_watch.specs.Seen.{HasStopped};
ghost use Rattle.std.specs.Prelude.{List};

use crate::report::ReportError;
use run_watch::WatchError;

/// Why a report ends whose events were not watched to their end.
pub(crate) fn ended(error: WatchError) -> ReportError
    ensures { (old new : CoreView) (lines : List Lined) → HasStopped old new lines error → HasEnded old new lines result }
{
    match error {
        WatchError::Stopped(stopped) => ReportError::Stopped(stopped),
        WatchError::OutOfMemory => ReportError::OutOfMemory,
    }
}
