//! Whose key it is.
ghost use Rattle.std.specs.Prelude.{◌≡◌};
ghost use Rattle.meeting_core.specs.KeyHolders.{caller_with};

use crate::book::Book;
use desk_words::{Caller, SecretKey};

impl Book {
    /// The caller whose key this is; none exactly where no key equals it. It takes no memory.
    pub fn caller_of(&self, key: &SecretKey) -> Option<Caller>
        ensures { result ≡ caller_with self.now.keys key.now }
    {
        let row = self.keys.as_slice().iter().find(|row| row.secret.is(*key))?;
        Some(row.caller)
    }
}
