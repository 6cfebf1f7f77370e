//! The command that serves an office, wherever it is stored, and how it ends.
ghost use Rattle.cli_exit.specs.Endings.{ended_view};
ghost use Rattle.cli_commands.specs.Serving.{EndsServing};
ghost use Rattle.http_listener.specs.Connections.{standing};

use any_office::Office;
use cli_exit::{Ended, ExitError};
use http_listener::{LoopFault, serve_loop};
use std::alloc::Global;
use tcp_close::Listener;
use wall_clock::Clock;

/// Serves one connection of a listener after another, so many in all, as
/// `http_listener::serve_loop` does, and ends with status 0. It ends before that with status 3 and
/// `Socket` or `Clock`, and what was served until then stands.
pub fn serve<O: Office, L: Listener, C: Clock>(
    alloc: Global,
    listener: &mut L,
    office: &mut O,
    clock: &mut C,
    requests: u32,
) -> Ended
    ensures { EndsServing L.Listener L.Reader.Source L.Writer.Sink C.Clock O.Office requests
        (standing listener.old clock.old office.old) (standing listener.new clock.new office.new)
        (ended_view result) }
{
    match serve_loop(alloc, listener, office, clock, requests) {
        Ok(()) => Ended::done(),
        Err(LoopFault::Socket) => Ended::by(ExitError::Socket),
        Err(LoopFault::Clock) => Ended::by(ExitError::Clock),
    }
}
