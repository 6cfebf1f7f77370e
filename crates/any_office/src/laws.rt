//! Laws of calls on an office, wherever it is stored.
ghost use Rattle.any_office.specs.CrashedOffice.{CrashesLeaveARun};
ghost use Rattle.any_office.specs.OfficeRuns.{CallsAreARun};

use crate::Office;

/// What is asked of an office is a run of the calls that were made; readings and calls that failed
/// are left out. Where an office was stored, and whatever was asked led, as `perform` and
/// `caller_of` promise, to one that is reliable and open, that one stores the office after the run.
#[tactic(auto, using(crate::proofs::OfficeRunLaws::calls_run))]
pub fn calls_are_a_run<O: Office>()
    ensures { CallsAreARun O.Office }
{}

/// What a crash leaves of an office, whatever was asked of it, and whether it is open or shut: it is
/// opened as the office after the run of the calls that were answered, or as that office after the
/// step of one call more, which failed.
#[tactic(auto, using(crate::proofs::CrashedOfficeLaws::crashes_run))]
pub fn crashes_leave_a_run<O: Office>()
    ensures { CrashesLeaveARun O.Office }
{}
