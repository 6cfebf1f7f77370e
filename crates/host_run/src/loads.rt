//! The commands that load a file into a desk.
ghost use Rattle.cli_exit.specs.Endings.{ended_view};
ghost use Rattle.host_run.specs.Commands.{LoadsAt, LoadsFile, LoadsInto, LoadsNow};

use crate::loading::Load;
use any_office::Office;
use byte_io::{DeviceError, Source};
use cli_exit::{Ended, ExitError};
use desk_words::Moment;
use host::{Files, OfficeFiles, ZoneClocks};
use std::alloc::Global;
use wall_clock::{Clock, ClockError, OfficeZone};

/// Loads what a reader gives into a desk.
fn load_into<D: Office, R: Source>(
    alloc: Global,
    kind: Load,
    desk: &mut D,
    now: Moment,
    reader: &mut R,
) -> Ended
    ensures { LoadsInto D.Office R.Source kind desk.old desk.new (ended_view result) now
        reader.old reader.new }
{
    match kind {
        Load::Keys => cli_commands::keys(alloc, desk, now, reader),
        Load::Days => cli_commands::days(alloc, desk, now, reader),
        Load::Register {
            meeting,
            record_moment,
        } => cli_commands::register(alloc, desk, now, meeting, record_moment, reader),
    }
}

/// Opens a file, and loads it into a desk.
fn load_at<F: Files, D: Office>(
    alloc: Global,
    kind: Load,
    name: &str,
    files: &mut F,
    desk: &mut D,
    now: Moment,
) -> Ended
    ensures { LoadsAt F.Files D.Office F.File.Source kind name.now files.old files.new
        desk.old desk.new (ended_view result) now }
{
    match files.open(name) {
        Ok(opened) => {
            let mut reader = opened;
            load_into(alloc, kind, desk, now, &mut reader)
        }
        Err(DeviceError) => Ended::by(ExitError::ReadFault),
    }
}

/// Asks the clock of a zone for the moment, then opens a file and loads it into a desk.
fn load_now<K: ZoneClocks, F: Files, D: Office>(
    alloc: Global,
    kind: Load,
    name: &str,
    zone: OfficeZone,
    clocks: &mut K,
    files: &mut F,
    desk: &mut D,
) -> Ended
    ensures { LoadsNow K.ZoneClocks K.Made.Clock F.Files D.Office F.File.Source kind name.now zone
        clocks.old clocks.new files.old files.new desk.old desk.new (ended_view result) }
{
    let mut clock = clocks.in_zone(zone);
    match clock.now() {
        Ok(now) => load_at(alloc, kind, name, files, desk, now),
        Err(ClockError) => Ended::by(ExitError::Clock),
    }
}

/// Loads a file into the desk in another: opens the desk, then asks the clock, then opens the file.
pub(crate) fn load_file<O: OfficeFiles, K: ZoneClocks, F: Files>(
    alloc: Global,
    kind: Load,
    file: &str,
    name: &str,
    zone: OfficeZone,
    offices: &mut O,
    clocks: &mut K,
    files: &mut F,
) -> Ended
    ensures { LoadsFile O.OfficeFiles O.File.Office K.ZoneClocks K.Made.Clock F.Files
        F.File.Source kind file.now name.now zone offices.old offices.new clocks.old clocks.new
        files.old files.new (ended_view result) }
{
    match offices.open(alloc, file) {
        Ok(opened) => {
            let mut desk = opened;
            let ended = load_now(alloc, kind, name, zone, clocks, files, &mut desk);
            offices.close(file, desk);
            ended
        }
        Err(ended) => ended,
    }
}
