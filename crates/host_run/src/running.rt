//! A run of the program.
ghost use Rattle.std.specs.Prelude.{map, string_bytes};
ghost use Rattle.cli_exit.specs.Endings.{ended_view};
ghost use Rattle.host_run.specs.Runs.{Does, DoesRead, Runs};

use crate::loading::Load;
use crate::loads::load_file;
use crate::prints::{replay, results};
use crate::reporting::report;
use crate::serving::serve;
use byte_io::Source;
use cli_args::{Plan, read_words};
use cli_exit::{Ended, WordsFault};
use host::{Console, Files, Host, OfficeFiles, Ports, ZoneClocks};
use std::alloc::Global;

/// Does what a plan asks for.
fn run_plan<O: OfficeFiles, F: Files, K: ZoneClocks, I: Source, W: Console, E: Console, P: Ports>(
    alloc: Global,
    plan: Plan<'_>,
    host: &mut Host<O, F, K, I, W, E, P>,
) -> Ended
    ensures { Does O.OfficeFiles O.File.Office F.Files F.File.Source K.ZoneClocks K.Made.Clock I.Source
        W.Sink E.Sink P.Ports P.Bound.Listener P.Bound.Reader.Source P.Bound.Writer.Sink
        plan.entry host.old host.new (ended_view result) }
{
    match plan {
        Plan::Init { file } => host.offices.create(file),
        Plan::Keys { file, csv, zone } => load_file(
            alloc,
            Load::Keys,
            file,
            csv,
            zone,
            &mut host.offices,
            &mut host.clocks,
            &mut host.files,
        ),
        Plan::Days { file, txt, zone } => load_file(
            alloc,
            Load::Days,
            file,
            txt,
            zone,
            &mut host.offices,
            &mut host.clocks,
            &mut host.files,
        ),
        Plan::Register {
            file,
            meeting,
            record_moment,
            csv,
            zone,
        } => load_file(
            alloc,
            Load::Register {
                meeting,
                record_moment,
            },
            file,
            csv,
            zone,
            &mut host.offices,
            &mut host.clocks,
            &mut host.files,
        ),
        Plan::Serve {
            file,
            port,
            requests,
            zone,
        } => serve(
            alloc,
            file,
            port,
            requests,
            zone,
            &mut host.offices,
            &mut host.ports,
            &mut host.clocks,
            &mut host.output,
        ),
        Plan::Results { file, meeting } => {
            results(alloc, file, meeting, &mut host.offices, &mut host.output)
        }
        Plan::Replay => replay(alloc, &mut host.input, &mut host.output),
    }
}

/// Does what the words ask for, if they ask for anything.
fn run_read<O: OfficeFiles, F: Files, K: ZoneClocks, I: Source, W: Console, E: Console, P: Ports>(
    alloc: Global,
    read: Result<Plan<'_>, WordsFault>,
    host: &mut Host<O, F, K, I, W, E, P>,
) -> Ended
    ensures { DoesRead O.OfficeFiles O.File.Office F.Files F.File.Source K.ZoneClocks K.Made.Clock I.Source
        W.Sink E.Sink P.Ports P.Bound.Listener P.Bound.Reader.Source P.Bound.Writer.Sink
        read.entry host.old host.new (ended_view result) }
{
    match read {
        Ok(plan) => run_plan(alloc, plan, host),
        Err(fault) => Ended::by_words(fault),
    }
}

/// Runs the program: does what its words ask for, its own name not among them, prints how that
/// ended, and returns the status.
pub fn run<O: OfficeFiles, F: Files, K: ZoneClocks, I: Source, W: Console, E: Console, P: Ports>(
    alloc: Global,
    words: &[String],
    host: &mut Host<O, F, K, I, W, E, P>,
) -> u8
    ensures { Runs O.OfficeFiles O.File.Office F.Files F.File.Source K.ZoneClocks K.Made.Clock I.Source
        W.Sink E.Sink P.Ports P.Bound.Listener P.Bound.Reader.Source P.Bound.Writer.Sink
        (map string_bytes words.now) host.old host.new result }
{
    let ended = run_read(alloc, read_words(alloc, words), host);
    report(&ended, &mut host.output, &mut host.errors)
}
