//! One connection after another.
ghost use Rattle.std.specs.Prelude.{◌≡◌, Err, IfErr, MatchResult, OnOk};
ghost use Rattle.desk_http.specs.declared.now.NowError.TheVariants as now_fault;
ghost use Rattle.http_listener.specs.Connections.{HasNoListener, HasNoMoment, IsTurn, ServesConnection, ServesTurns, Turn, standing};
ghost use Rattle.http_listener.specs.declared.listening.LoopFault.TheVariants.{Clock, Socket};

use any_office::Office;
use desk_http::{NowError, serve_now};
use std::alloc::Global;
use tcp_close::{Accepted, Connection, Listener, SocketError, next_connection};
use wall_clock::{Clock, ClockError};

/// Why a loop ends before all its connections were served. Want of memory is a reply to the peer, so
/// it ends no loop.
#[derive(Clone, Copy, Debug, PartialEq, Eq)]
pub enum LoopFault {
    /// The listener failed, and not by one peer that is gone.
    Socket,
    /// The clock gave no moment.
    Clock,
}

impl From<SocketError> for LoopFault {
    ghost from_gives = { λ _ why. why ≡ Socket };

    fn from(_: SocketError) -> LoopFault {
        LoopFault::Socket
    }
}

impl From<ClockError> for LoopFault {
    ghost from_gives = { λ _ why. why ≡ Clock };

    fn from(_: ClockError) -> LoopFault {
        LoopFault::Clock
    }
}

/// What of a request that was served ends a loop: that the clock gave no moment.
fn unless_untimed(served: Result<(), NowError>) -> Result<(), ClockError>
    ensures { MatchResult result (λ _. served ≡ Err now_fault.Clock → ⊥)
        (λ _. served ≡ Err now_fault.Clock) }
{
    match served {
        Err(NowError::Clock) => Err(ClockError),
        Ok(()) | Err(NowError::Serve(_)) => Ok(()),
    }
}

/// Serves the one request of a connection, and gives the connection back to its listener to be
/// ended, also where its peer failed.
fn serve_connection<O: Office, L: Listener, C: Clock>(
    alloc: Global,
    listener: &mut L,
    office: &mut O,
    clock: &mut C,
    taken: Connection<L::Reader, L::Writer>,
) -> Result<(), NowError>
    ensures { ServesConnection L.Listener L.Reader.Source L.Writer.Sink C.Clock O.Office result taken
        (standing listener.old clock.old office.old) (standing listener.new clock.new office.new) }
{
    let mut connection = taken;
    let served = serve_now(
        alloc,
        office,
        clock,
        &mut connection.reader,
        &mut connection.writer,
    );
    listener.end(connection);
    served
}

/// Serves the next connection of a listener, or counts a peer that was gone before.
fn serve_next<O: Office, L: Listener, C: Clock>(
    alloc: Global,
    listener: &mut L,
    office: &mut O,
    clock: &mut C,
) -> Result<(), LoopFault>
    ensures turned { OnOk result ((turn : Turn L.Reader L.Writer)
        × IsTurn L.Listener L.Reader.Source L.Writer.Sink C.Clock O.Office turn
        (standing listener.old clock.old office.old)
        (standing listener.new clock.new office.new)) }
    ensures no_listener { IfErr result (λ fault. fault ≡ Socket
        → HasNoListener L.Listener L.Reader.Source L.Writer.Sink C.Clock O.Office
        (standing listener.old clock.old office.old)
        (standing listener.new clock.new office.new)) }
    ensures no_moment { IfErr result (λ fault. fault ≡ Clock
        → HasNoMoment L.Listener L.Reader.Source L.Writer.Sink C.Clock O.Office
        (standing listener.old clock.old office.old)
        (standing listener.new clock.new office.new)) }
{
    match next_connection(listener)? {
        Accepted::Peer(taken) => {
            let served = serve_connection(alloc, listener, office, clock, taken);
            Ok(unless_untimed(served)?)
        }
        Accepted::Gone => Ok(()),
    }
}

/// Serves one connection of a listener after another by an office, so many in all. It waits for
/// each peer as long as it takes.
///
/// Each turn takes the next connection, serves its one request as `serve_now` does, by its own
/// source and sink and at the moment that the clock gives once the request was read, and has the
/// listener end it as it is then, also where its peer failed. A peer that is gone before its
/// connection is taken counts as a turn in which nothing else is done. Where the office is no longer
/// open each request is answered by 503 and changes nothing. `laws::loops_are_runs` says what such a
/// loop asked of the office, also for a crash.
///
/// The error is `Socket` only where the listener failed, and not where one peer is gone; then
/// nothing else was asked. It is `Clock` only where the clock gave no moment for a request that was
/// read; its connection was ended, and nothing was written or changed.
pub fn serve_loop<O: Office, L: Listener, C: Clock>(
    alloc: Global,
    listener: &mut L,
    office: &mut O,
    clock: &mut C,
    count: u32,
) -> Result<(), LoopFault>
    ensures { ServesTurns L.Listener L.Reader.Source L.Writer.Sink C.Clock O.Office count result
        (standing listener.old clock.old office.old) (standing listener.new clock.new office.new) }
{
    let mut served = 0;
    while served < count {
        serve_next(alloc, listener, office, clock)?;
        served += 1;
    }
    Ok(())
}
