//! The commands that print: the results of a meeting, and the answers to a script.
ghost use Rattle.cli_exit.specs.Endings.{ended_view};
ghost use Rattle.host_run.specs.Commands.{PrintsResults, Replays};

use byte_io::{Sink, Source};
use cli_exit::Ended;
use desk_words::MeetingId;
use host::OfficeFiles;
use office_file::OfficeFile;
use std::alloc::Global;

/// Prints the results of a meeting of the desk in a file.
pub(crate) fn results<O: OfficeFiles, W: Sink>(
    alloc: Global,
    file: &str,
    meeting: MeetingId,
    offices: &mut O,
    output: &mut W,
) -> Ended
    ensures { PrintsResults O.OfficeFiles O.File.Office W.Sink file.now meeting
        offices.old offices.new output.old output.new (ended_view result) }
{
    match offices.open(alloc, file) {
        Ok(opened) => {
            let mut desk = opened;
            let ended = desk.results(alloc, meeting, output);
            offices.close(file, desk);
            ended
        }
        Err(ended) => ended,
    }
}

/// Answers the lines of standard input on standard output.
pub(crate) fn replay<I: Source, W: Sink>(alloc: Global, input: &mut I, output: &mut W) -> Ended
    ensures { Replays I.Source W.Sink input.old input.new output.old output.new
        (ended_view result) }
{
    cli_commands::replay(alloc, input, output)
}
