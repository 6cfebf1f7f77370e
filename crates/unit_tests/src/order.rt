//! That the clock is asked once a request was read.
use crate::office::{Office, moment};
use crate::peers::{is_sent, listen, send};
use desk_words::Moment;
use std::alloc::Global;
use std::net::TcpStream;
use std::test::Fail;
use wall_clock::{Clock, ClockError};

/// A clock that a cutoff passes while a request is on its way: it shows one moment as long as bytes
/// of a connection are to be read, and another behind them.
#[derive(Drop)]
struct CutoffClock<'a> {
    stream: &'a TcpStream,
    before: Moment,
    behind: Moment,
}

/// Whether bytes of a connection have come and are to be read.
fn is_unread(stream: &TcpStream) -> bool {
    let _ = stream.set_nonblocking(true);
    let is_unread = stream.peek(&mut [0; 1]).is_ok();
    let _ = stream.set_nonblocking(false);
    is_unread
}

impl Clock for CutoffClock<'_> {
    ghost use Rattle.std.specs.Prelude.{⊤};

    ghost gives = { λ _ _ _. ⊤ };

    ghost fails = { λ _ _. ⊤ };

    fn now(&mut self) -> Result<Moment, ClockError> {
        Ok(if is_unread(self.stream) {
            self.before
        } else {
            self.behind
        })
    }
}

const APPOINT: &str = "POST /m/G1/appoint HTTP/1.1\r\nDesk-Key: mmmmmmmmmmmmmmmm\r\n\
                       Content-Length: 62\r\n\r\n\
                       {\"proxy\":\"P\",\"from\":1,\"to\":100,\"instructions\":[\"free\",\"free\"]}";

/// What is told where an appointment was late for the meeting.
const LATE: &str = "HTTP/1.1 200 OK\r\nContent-Type: application/json\r\n\
                    Content-Length: 54\r\nConnection: close\r\n\r\n\
                    {\"number\":1,\"ok\":\"appointed\",\"use\":\"later polls only\"}";

/// Serves the request of a connection by a new office, whose clock shows these moments.
fn serve(alloc: Global, stream: &TcpStream, before: Moment, behind: Moment) -> Result<(), Fail> {
    let mut clock = CutoffClock {
        stream,
        before,
        behind,
    };
    Ok(Office::new(alloc)?.serve_now(stream, &mut clock)?)
}

// The cutoff of the meeting is at the first of the two moments.
#[test]
fn a_peer_that_sends_after_a_cutoff_is_late(rt: HostRuntime) -> Result<(), Fail> {
    let before = moment("2026-06-16T10:00:00")?;
    let behind = moment("2026-06-16T10:00:01")?;
    let listener = listen(&rt)?;
    let peer = send(&rt, &listener, APPOINT.as_bytes())?;
    let (stream, _) = listener.accept()?;
    assert!(rt; is_unread(&stream));
    serve(rt.alloc(), &stream, before, behind)?;
    drop(stream);
    assert!(rt; is_sent(rt.alloc(), peer, LATE)?);
    Ok(())
}
