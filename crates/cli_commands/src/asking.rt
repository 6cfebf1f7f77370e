//! The one request of a command.
ghost use Rattle.std.specs.Prelude.{◌≡◌, ◌≢◌, ◌⊎◌, IfOk};
ghost use Rattle.any_office.specs.StoredOffice.{HasFailed, HoldsOfOffice};
ghost use Rattle.any_office.specs.Storing.{HoldsOfStored, IsStored, IsStoredOrNext};
ghost use Rattle.cli_exit.specs.Endings.{ended_view};
ghost use Rattle.cli_commands.specs.LoadCommands.{by_office, ended_by_reply, AnswersCall};

use any_office::Office;
use cli_exit::Ended;
use desk_words::{Call, Caller, Moment, Reply, Request};
use std::alloc::AllocError;

/// How the program ends after a reply to what loads.
fn by_reply(reply: &Reply) -> Result<Ended, AllocError>
    ensures { IfOk result (λ ended. ended_view ended ≡ ended_by_reply reply.now) }
{
    Ok(match reply {
        Reply::Loaded => Ended::with_word("loaded"),
        Reply::Same => Ended::with_word("same"),
        Reply::Refused(refusal) => Ended::by_refusal(*refusal),
        _ => Ended::done(),
    })
}

/// Makes one request of the office, and ends as its reply says.
pub(crate) fn ask<O: Office>(office: &mut O, now: Moment, request: Request) -> Ended
    ensures answers { HoldsOfOffice O.is_reliable O.stands office.old office.new
        (λ held. AnswersCall held (by_office now request) (ended_view result)
        (O.stands office.new) (λ _. O.is_open office.new → O.stands office.new held)) }
    ensures stores { HoldsOfStored O.Office office.old office.new
        (λ held. AnswersCall held (by_office now request) (ended_view result)
        (IsStored O.Office office.new) (IsStoredOrNext O.Office office.new held)) }
    ensures same { HoldsOfOffice O.is_reliable O.stands office.old office.new
        (λ held. O.is_open office.new → result.status ≢ 0 → O.stands office.new held) }
    ensures trust { O.is_reliable office.new → O.is_reliable office.old }
    ensures closes { O.is_reliable office.new → O.is_open office.old
        → O.is_open office.new ⊎ HasFailed (O.faults office.old) (O.faults office.new) }
{
    let call = Call {
        moment: now,
        caller: Caller::Office,
        request,
    };
    match office.perform(call, by_reply) {
        Ok(ended) => ended,
        Err(failure) => Ended::by_failure(failure),
    }
}
