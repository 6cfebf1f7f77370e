//! The body of a request.
ghost use Rattle.std.specs.Prelude.{◌≡◌, ◌-◌, ◌≤◌, ◌++◌, length, min, take, IfOk, OnOk, OnErr};
ghost use Rattle.byte_io.specs.Counts.{one_more};
ghost use Rattle.http_requests.specs.ReceivedRequests.{TakesAtMost, IsBody};

use byte_io::{DeviceError, Source, read_to_fill};

/// Copies as many bytes as fit to the front of the body, and returns how many.
fn copy_front(bytes: &[u8], body: &mut [u8]) -> usize
    ensures count { result ≡ min (length bytes.now) (length body.old) }
    ensures front { take result body.new ≡ take result bytes.now }
    ensures size { length body.new ≡ length body.old }
{
    let count = bytes.len().min(body.len());
    body[..count].copy_from_slice(&bytes[..count]);
    count
}

/// Reads a body that fills the buffer: first the bytes that were read behind the head, and then as
/// many of the source as are missing. False says that the source has ended before.
pub(crate) fn read_body<S: Source>(
    behind: &[u8],
    source: &mut S,
    body: &mut [u8],
) -> Result<bool, DeviceError>
    ensures came { TakesAtMost
        (λ bytes. IfOk result (λ whole. IsBody whole body.new (behind.now ++ bytes)))
        (λ bytes. length bytes ≤ length body.old - length behind.now)
        (S.remaining source.old) (S.remaining source.new)
        (S.passed source.old) (S.passed source.new) }
    ensures size { length body.new ≡ length body.old }
    ensures works { OnOk result (S.failures source.new ≡ S.failures source.old) }
    ensures failed { OnErr result (S.failures source.new ≡ one_more (S.failures source.old)) }
{
    let here = copy_front(behind, body);
    match read_to_fill(source, &mut body[here..]) {
        Ok(count) => Ok(here + count == body.len()),
        Err(_) => Err(DeviceError),
    }
}
