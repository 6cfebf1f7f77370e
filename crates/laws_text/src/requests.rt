//! Laws of the replies over HTTP.
ghost use Rattle.laws_text.specs.ReplySecrecy.{RepliesShowNoMore, TextsShowNoMore};

use http_requests::laws::one_request;
use laws_step::two_worlds;

/// Any two offices that agree on the public record of the meeting in which a party asks, and on its
/// own things there, reply alike to it over HTTP: the same reply, and, from the same bytes, the same
/// bytes. To a sender whose key is nobody's in both, any two reply the same.
pub fn replies_show_no_more()
    ensures replies { RepliesShowNoMore }
    ensures texts { TextsShowNoMore }
{
    two_worlds();
    one_request();
}
