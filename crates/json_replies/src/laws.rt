//! Laws of the texts of replies.
ghost use Rattle.json_replies.specs.Letters.{RepliesAreSpelled};

/// The texts of the replies that are no lists, of the failures, and of replies about a meeting of
/// one session and of two, letter for letter.
pub fn replies_are_spelled()
    ensures { RepliesAreSpelled }
{}
