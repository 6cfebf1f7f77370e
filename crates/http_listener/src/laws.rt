//! Laws of an office that is served.
ghost use Rattle.http_listener.specs.Turns.{LoopsAreRuns};

use any_office::Office;
use tcp_close::Listener;
use wall_clock::Clock;

/// What serving one connection after another leaves of an office, as `serve_loop` promises it,
/// whatever comes of peers and sockets. No failure is made good, only a device that fails shuts the
/// office, and the office that was stored is afterwards the one after the run of the calls that were
/// answered. At most one call was tried a connection, answered or failed, each at a moment that the
/// clock gave.
///
/// What was asked of the office is told event by event, as `any_office::laws::crashes_leave_a_run`
/// takes it. So that law says what a crash leaves of the served office.
pub fn loops_are_runs<O: Office, L: Listener, C: Clock>()
    ensures { LoopsAreRuns L.Listener L.Reader.Source L.Writer.Sink C.Clock O.Office }
{}
