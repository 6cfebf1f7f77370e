//! The end of a connection.
ghost use Rattle.std.specs.Prelude.{◌≡◌, ◌+◌, ◌<◌, IfOk, OnOk, OnErr};
ghost use Rattle.std.specs.Io.KnownBytes.{IsAtEnd};
ghost use Rattle.byte_io.specs.Counts.{one_more};
ghost use Rattle.tcp_close.specs.Draining.{PassesAtMost};
ghost use Rattle.tcp_close.specs.Ending.{EndsInOrder, TakesRest};

use crate::closing::Closing;
use byte_io::{DeviceError, Source};

/// The most bytes of a peer's rest that are taken before its connection is closed: 1 MiB.
///
/// A socket that is closed over bytes that nobody read drops what it still has to send, and with
/// it the reply. A request that is read has at most 73,728 bytes, so this takes all that has come
/// of a peer that sends some more than that, and still ends with one that never stops.
pub const MOST_DRAINED: usize = 1_048_576;

// How many bytes are taken at once.
const PIECE: usize = 8_192;

/// Takes what is left of a source, up to the bound, and returns how many bytes that were. Fewer
/// than the bound say that the source has ended.
///
/// The error is one failed call of the source, behind the bytes that it gave before.
pub fn drain<S: Source>(source: &mut S) -> Result<usize, DeviceError>
    ensures gave { PassesAtMost MOST_DRAINED (S.remaining source.old) (S.remaining source.new)
        (S.passed source.old) (S.passed source.new) }
    ensures count { IfOk result (λ n. S.passed source.new ≡ S.passed source.old + n) }
    ensures end { IfOk result (λ n. n < MOST_DRAINED → IsAtEnd (S.remaining source.new)) }
    ensures works { OnOk result (S.failures source.new ≡ S.failures source.old) }
    ensures failed { OnErr result (S.failures source.new ≡ one_more (S.failures source.old)) }
{
    let mut piece = [0; PIECE];
    let mut taken = 0;
    while taken < MOST_DRAINED {
        let most = PIECE.min(MOST_DRAINED - taken);
        let count = source.read(&mut piece[..most])?;
        if count == 0 {
            break;
        }
        taken += count;
    }
    Ok(taken)
}

/// Takes what has already come of the peer's rest, if the connection can be kept from waiting.
fn take_rest<S: Source + Closing>(socket: &mut S)
    ensures { TakesRest S.Source S.Closing socket.old socket.new }
{
    match socket.stop_waiting() {
        Ok(()) => {
            let _ = drain(socket);
        }
        Err(DeviceError) => {}
    }
}

/// Ends a connection: first our side of it, so that the peer sees where the reply ends; then it
/// takes what has already come of the peer's rest, at most 1 MiB. It waits for nothing, so a peer
/// that sends later may still lose the reply. The connection closes when it is dropped.
pub fn end_connection<S: Source + Closing>(socket: &mut S)
    ensures { EndsInOrder S.Source S.Closing socket.old socket.new }
{
    socket.end_reply();
    take_rest(socket);
}
