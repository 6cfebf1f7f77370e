//! Searches in bytes that were read.
ghost use Rattle.std.specs.Prelude.{◌≡◌, ◌+◌, ◌<◌, ◌≤◌, length, take, position, MatchOption};
ghost use Rattle.line_reader.specs.Lines.{is_feed, feed_place, without_return};

use memchr::memchr;

/// The place of the first line feed. The bytes before `searched` are known to hold none.
#[inline(always)]
pub fn find_feed(bytes: &[u8], searched: usize) -> Option<usize>
    requires { searched ≤ feed_place bytes.now }
    ensures { MatchOption result (feed_place bytes.now ≡ length bytes.now)
        (λ place. (place ≡ feed_place bytes.now) × (place < length bytes.now)) }
{
    let (_, rest) = bytes.split_at(searched);
    match first_feed(rest) {
        Some(place) => Some(searched + place),
        None => None,
    }
}

/// The place of the first line feed. One that stands first needs no search.
#[inline(always)]
fn first_feed(bytes: &[u8]) -> Option<usize>
    ensures { result ≡ position is_feed bytes.now }
{
    match bytes {
        [b'\n', ..] => Some(0),
        _ => search_feed(bytes),
    }
}

/// The same, by a search.
#[inline(never)]
fn search_feed(bytes: &[u8]) -> Option<usize>
    ensures { result ≡ position is_feed bytes.now }
{
    memchr(b'\n', bytes)
}

/// How many bytes there are, one carriage return at their end not counted.
pub fn len_without_return(bytes: &[u8]) -> usize
    ensures line { take result bytes.now ≡ without_return bytes.now }
    ensures bound { result ≤ length bytes.now }
    ensures one { length bytes.now ≤ result + 1 }
{
    match bytes {
        [.., b'\r'] => bytes.len() - 1,
        _ => bytes.len(),
    }
}
