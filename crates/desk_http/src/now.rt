//! One request, served at the moment that a clock gives.
ghost use Rattle.desk_http.specs.Served.{ServesRequest, as_served, only_at};

use crate::serve::{ServeFault, reply_to};
use any_office::Office;
use byte_io::{Sink, Source};
use desk_words::Moment;
use http_requests::read_request;
use std::alloc::Global;
use wall_clock::{Clock, ClockError};

/// Why a request was not served to its end.
#[derive(Clone, Copy, Debug, PartialEq, Eq)]
pub enum NowError {
    /// A device failed.
    Serve(ServeFault),
    /// The clock gave no moment. The request was read; nothing was written or changed.
    Clock,
}

/// A clock that gives one moment, as often as it is asked.
#[derive(Drop)]
struct OnlyAt(Moment);

impl Clock for OnlyAt {
    ghost use Rattle.std.specs.Prelude.{◌≡◌};

    ghost gives = { λ old moment new. moment ≡ old.0 };

    ghost fails = { λ old new. ⊥ };

    fn now(&mut self) -> Result<Moment, ClockError> {
        Ok(self.0)
    }
}

/// Serves one request at the moment that a clock gives: reads it, then asks the clock, then has it
/// answered by an office and writes the reply, as `reply_to` does. So what a peer sends after a
/// moment is served after it, however early it connected.
///
/// What is written is exactly the text of the reply to what the bytes spell, and the office is the
/// one after that call; or it is the fixed text of a failure, and the office is as it was.
/// `Read` and `Write` are returned only where that device failed, once in the call. After `Read`
/// nothing is written or changed, and the clock was not asked, but for a source that failed in the
/// body; after `Write` a part of one of these texts is written, and the office is as after that
/// text; after `Clock` nothing is written or changed. The one call that may have been tried, answered
/// or failed, is the one that was received, at that moment. At most 8,192 + 65,536 bytes are taken,
/// and 8,192 where the head alone is answered; those behind the request are not looked at.
pub fn serve_now<O: Office, C: Clock, R: Source, W: Sink>(
    alloc: Global,
    office: &mut O,
    clock: &mut C,
    reader: &mut R,
    writer: &mut W,
) -> Result<(), NowError>
    ensures { ServesRequest O.Office C.Clock R.Source W.Sink result office.old office.new
        clock.old clock.new reader.old reader.new writer.old writer.new }
{
    let Ok(received) = read_request(alloc, reader) else {
        return Err(NowError::Serve(ServeFault::Read));
    };
    let Ok(moment) = clock.now() else {
        return Err(NowError::Clock);
    };
    match reply_to(alloc, office, moment, received, writer) {
        Ok(()) => Ok(()),
        Err(fault) => Err(NowError::Serve(fault)),
    }
}

/// Serves one request at a moment, as `serve_now` does by a clock that gives this one.
pub fn serve_one<O: Office, R: Source, W: Sink>(
    alloc: Global,
    office: &mut O,
    moment: Moment,
    reader: &mut R,
    writer: &mut W,
) -> Result<(), ServeFault>
    ensures { ServesRequest O.Office (only_at moment) R.Source W.Sink (as_served result)
        office.old office.new tt tt reader.old reader.new writer.old writer.new }
{
    match serve_now(alloc, office, &mut OnlyAt(moment), reader, writer) {
        Ok(()) => Ok(()),
        Err(NowError::Serve(fault)) => Err(fault),
        Err(NowError::Clock) => unreachable!(),
    }
}
