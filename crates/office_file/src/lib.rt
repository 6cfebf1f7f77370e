//! An office in a file that is open, behind a trait, as the program asks and prints it. The program
//! is written and proved over the trait.
#![tactic(auto)]

ghost use Rattle.any_office.specs.StoredOffice.{HoldsOfOffice, IsKnownIfOpen, LeavesAtMost};
ghost use Rattle.cli_exit.specs.Endings.{ended_view};
ghost use Rattle.desk_papers.specs.ResultPrinting.{Prints};
ghost use Rattle.desk_words.specs.declared.office.OfficeLists.{OfficeLists};
ghost use Rattle.party_views.specs.Views.{public_of};

use any_office::Office;
use byte_io::Sink;
use cli_exit::Ended;
use desk_words::MeetingId;
use std::alloc::Global;

/// An office in a file that is open.
pub trait OfficeFile: Office + Drop {
    /// Prints the results of a meeting as its public record shows them, and ends with status 0 and
    /// no line. A meeting that there is not ends with 1 and its refusal, and nothing is written.
    ///
    /// `WriteFault` says that a write failed; what was written is then a part of the text from its
    /// front. After `Store` and `Memory` nothing was written. The office stays as it is, and a crash
    /// leaves what it left before.
    fn results<W: Sink>(&mut self, alloc: Global, meeting: MeetingId, writer: &mut W) -> Ended
        ensures prints { HoldsOfOffice Self.is_reliable Self.stands self.old self.new (λ office.
            Prints (public_of office meeting)
            (record { contents = W.contents writer.old; failures = W.failures writer.old })
            (record { contents = W.contents writer.new; failures = W.failures writer.new })
            (ended_view result)) }
        ensures trust { Self.is_reliable self.new → Self.is_reliable self.old }
        ensures same { HoldsOfOffice Self.is_reliable Self.stands self.old self.new
            (λ office. Self.is_open self.new → Self.stands self.new office) }
        ensures crash { Self.is_reliable self.new
            → IsKnownIfOpen Self.is_open Self.stands self.old
            → LeavesAtMost Self.may_leave self.old self.new (λ _. ⊥) };
}
