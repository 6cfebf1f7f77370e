//! The command that answers a script.
ghost use Rattle.std.specs.Prelude.{◌≡◌, ◌≤◌, ◌+◌, ◌-◌, OnOk, IfErr, Result};
ghost use Rattle.std.specs.Io.KnownBytes.{IsAtEnd};
ghost use Rattle.cli_exit.specs.Endings.{ended_view};
ghost use Rattle.line_reader.specs.NextLine.{longest_input};
ghost use Rattle.replay.specs.ReplaySteps.{HasEndedFor};
ghost use Rattle.replay.specs.declared.script.ReplayFault.{ReplayFault as Fault};
ghost use Rattle.cli_commands.specs.ReplayCommand.{AllIfKnown, UntilIfKnown, ended_replaying, failures_of};

use byte_io::{Sink, Source};
use cli_exit::{Ended, ExitError as Cause};
use replay::ReplayFault;
use std::alloc::Global;

/// How a replay ends the program.
fn by_replay(outcome: Result<(), ReplayFault>) -> Ended
    ensures { ended_view result ≡ ended_replaying outcome }
{
    match outcome {
        Ok(()) => Ended::done(),
        Err(ReplayFault::Read) => Ended::by(Cause::ReadFault),
        Err(ReplayFault::Write) => Ended::by(Cause::WriteFault),
    }
}

/// Answers the lines of a script, one by one, on a book in memory that begins as the empty office
/// and is forgotten at the end. It ends with status 0 and no line; with 3 and `ReadFault` or
/// `WriteFault` where a device failed, or more bytes came than a script may have.
pub fn replay<R: Source, W: Sink>(alloc: Global, reader: &mut R, writer: &mut W) -> Ended
    ensures { (outcome : Result (Unit {0}) Fault)
        × (ended_view result ≡ ended_replaying outcome)
        × OnOk outcome
        (AllIfKnown (R.remaining reader.old) (W.contents writer.old) (W.contents writer.new))
        × IfErr outcome
        (λ fault. UntilIfKnown fault (R.remaining reader.old)
        (R.passed reader.new - R.passed reader.old) (W.contents writer.old)
        (W.contents writer.new))
        × OnOk outcome
        ((R.failures reader.new ≡ R.failures reader.old)
        × (W.failures writer.new ≡ W.failures writer.old))
        × IfErr outcome
        (λ fault. HasEndedFor fault (R.passed reader.new - R.passed reader.old)
        (failures_of R.Source W.Sink reader.old writer.old)
        (failures_of R.Source W.Sink reader.new writer.new))
        × OnOk outcome (IsAtEnd (R.remaining reader.new))
        × OnOk outcome (R.passed reader.new - R.passed reader.old ≤ longest_input)
        × (R.passed reader.new - R.passed reader.old ≤ longest_input + 1) }
{
    by_replay(replay::replay(alloc, reader, writer))
}
