//! The printing of results.
ghost use Rattle.std.specs.Prelude.{◌≡◌, Err, OnOk};
ghost use Rattle.std.specs.Io.KnownBytes.{Appends};
ghost use Rattle.byte_io.specs.Counts.{one_more};
ghost use Rattle.byte_io.specs.Written.{AppendsPrefix};
ghost use Rattle.desk_papers.specs.PrintedResults.{results_of};

use crate::text::results_text;
use byte_io::{PrintError, Sink, write_all};
use party_views::PublicRecord;
use std::alloc::Global;

/// Writes the results of a meeting: what is known of the meeting itself, and each resolution with
/// its state, and with the figures of its poll once that is declared. A record without a meeting
/// has no text, and nothing is written.
pub fn print_results<W: Sink>(
    alloc: Global,
    public: &PublicRecord<'_>,
    writer: &mut W,
) -> Result<(), PrintError>
    ensures written { OnOk result
        (Appends (W.contents writer.old) (W.contents writer.new) (results_of public.now)) }
    ensures works { OnOk result (W.failures writer.new ≡ W.failures writer.old) }

    ensures partly { result ≡ Err PrintError.WriteFault
        → AppendsPrefix (W.contents writer.old) (W.contents writer.new) (results_of public.now) }
    ensures failed { result ≡ Err PrintError.WriteFault
        → W.failures writer.new ≡ one_more (W.failures writer.old) }
    ensures untouched { result ≡ Err PrintError.Memory → writer.new ≡ writer.old }
{
    let Ok(text) = results_text(alloc, public) else {
        return Err(PrintError::Memory);
    };
    match write_all(writer, &text) {
        Ok(()) => Ok(()),
        Err(_) => Err(PrintError::WriteFault),
    }
}
