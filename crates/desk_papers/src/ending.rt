//! The printing of a meeting's results from its public record, and how the program ends.
ghost use Rattle.cli_exit.specs.Endings.{ended_view};
ghost use Rattle.desk_papers.specs.ResultPrinting.{PrintsRecord};

use crate::print::print_results;
use byte_io::Sink;
use cli_exit::Ended;
use desk_words::Refusal;
use party_views::PublicRecord;
use std::alloc::Global;

/// Prints what a public record shows, and ends with status 0 and no line. Where it has no meeting,
/// it ends with 1 and the refusal, and nothing is written. `WriteFault` says that a write failed;
/// what was written is then a part of the text from its front. After `Memory` nothing was written.
pub fn show_results<W: Sink>(alloc: Global, public: &PublicRecord<'_>, writer: &mut W) -> Ended
    ensures { PrintsRecord public.now
        (record { contents = W.contents writer.old; failures = W.failures writer.old })
        (record { contents = W.contents writer.new; failures = W.failures writer.new })
        (ended_view result) }
{
    if public.meeting().is_none() {
        return Ended::by_refusal(Refusal::NoMeeting);
    }
    match print_results(alloc, public, writer) {
        Ok(()) => Ended::done(),
        Err(fault) => Ended::by_print(fault),
    }
}
