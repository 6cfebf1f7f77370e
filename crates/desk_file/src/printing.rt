//! The command that prints results.
ghost use Rattle.std.specs.Prelude.{IsTrue, None};
ghost use Rattle.party_views.specs.Views.{public_of};
ghost use Rattle.cli_exit.specs.Endings.{ended_view};
ghost use Rattle.desk_papers.specs.ResultPrinting.{Prints};
ghost use Rattle.sql_model.specs.Standing.{Stands};
ghost use Rattle.desk_store.specs.Joins.{IsDeskIfOpen, LeavesDesk};
ghost use Rattle.desk_words.specs.declared.office.OfficeLists.{OfficeLists};
ghost use Rattle.sqlite.specs.Held.{state};
ghost use Rattle.sqlite.specs.State.{HasCleanDisk, Survives};

use byte_io::Sink;
use cli_exit::Ended;
use desk_cache::CachingDesk;
use desk_words::MeetingId;
use sqlite::Alter;
use std::alloc::Global;

/// Prints the results of a meeting as its public record shows them, and ends with status 0 and no
/// line. A meeting that there is not ends with 1 and its refusal, and nothing is written.
///
/// `WriteFault` says that a write failed; what was written is then a part of the text from its
/// front. After `Store` and `Memory` nothing was written. The tables stay as they are, and a crash
/// leaves what it left before.
#[tactic(auto, using(crate::proofs::PrintLemmas::not_begun))]
pub fn results<S: Alter, W: Sink>(
    alloc: Global,
    desk: &mut CachingDesk<S>,
    meeting: MeetingId,
    writer: &mut W,
) -> Ended
    ensures prints { HasCleanDisk (state S.Store desk.new) → (office : OfficeLists)
        → Stands (state S.Store desk.old) office
        → Prints (public_of office meeting)
        (record { contents = W.contents writer.old; failures = W.failures writer.old })
        (record { contents = W.contents writer.new; failures = W.failures writer.new })
        (ended_view result) }
    ensures same { HasCleanDisk (state S.Store desk.new) → IsTrue (state S.Store desk.new).is_open
        → (office : OfficeLists) → Stands (state S.Store desk.old) office
        → Stands (state S.Store desk.new) office }
    ensures leaves { LeavesDesk S.Store None desk.old desk.new }
    ensures crash { IsDeskIfOpen (state S.Store desk.old)
        → Survives (state S.Store desk.old) (state S.Store desk.new) (λ _. ⊥) }
{
    match desk.read_public(meeting) {
        Ok(found) => desk_papers::show_results(alloc, &found.record(), writer),
        Err(failure) => Ended::by_failure(failure),
    }
}
