//! The texts of failures.
ghost use Rattle.std.specs.Prelude.{◌≡◌};
ghost use Rattle.json_replies.specs.Replies.{failure_bytes};

use desk_words::Failure;

/// The JSON text that tells of a failure. It takes no memory, since there may be none left.
pub fn failure_text(failure: Failure) -> &'static str
    ensures { result.now ≡ failure_bytes failure }
{
    match failure {
        Failure::Store => "{\"failed\":\"Store\"}",
        Failure::Memory => "{\"failed\":\"Memory\"}",
    }
}
