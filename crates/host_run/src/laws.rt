//! Laws of what the program does to the office that a file stores. With them a sequence of commands on
//! one file is a run of that office.
ghost use Rattle.host_run.specs.ServedStored.{ServesAreStored};
ghost use Rattle.host_run.specs.Stored.{CreatesStored, LoadsAreStored, ResultsKeepStored};

use any_office::laws::crashes_leave_a_run;
use byte_io::Sink;
use host::{Files, OfficeFiles, Ports, ZoneClocks};
use http_listener::laws::loops_are_runs;

/// What is promised of the office in a file, as it is open, holds of the office that the file of
/// that name stores, before and after a file is loaded into it. Where the store failed, it stores the
/// office before or after the load.
pub fn loads_are_stored<O: OfficeFiles, K: ZoneClocks, F: Files>()
    ensures { LoadsAreStored O.OfficeFiles O.File.Office K.ZoneClocks K.Made.Clock F.Files
        F.File.Source }
{}

/// Results are printed of the office that the file of that name stores, and it stores it still.
pub fn results_keep_what_is_stored<O: OfficeFiles, W: Sink>()
    ensures { ResultsKeepStored O.OfficeFiles O.File.Office W.Sink }
{}

/// A file in which `init` made a desk stores the office that holds nothing.
pub fn a_new_desk_is_stored<O: OfficeFiles>()
    ensures { CreatesStored O.OfficeFiles }
{}

/// A file that was served stores the office after a run of further calls, at most one a connection,
/// each at a moment that the clock gave: of those that were answered, and perhaps of one more that
/// failed.
pub fn serves_are_stored<O: OfficeFiles, P: Ports, K: ZoneClocks, W: Sink>()
    ensures { ServesAreStored O.OfficeFiles K.ZoneClocks K.Made.Clock O.File.Office P.Ports
        P.Bound.Listener P.Bound.Reader.Source P.Bound.Writer.Sink W.Sink }
{
    crashes_leave_a_run::<O::File>();
    loops_are_runs::<O::File, P::Bound, K::Made>();
}
