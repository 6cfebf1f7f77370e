//! The office in memory.
use crate::Office;
use desk_words::{Call, Caller, Failure, Reply, SecretKey};
use meeting_core::Book;
use std::alloc::AllocError;

// Nothing of it is left after a crash. The only failure is want of memory.
impl Office for Book {
    ghost use Rattle.desk_words.specs.declared.reply.Failure.TheVariants.{Memory};
    ghost use Rattle.std.specs.Prelude.{◌≡◌};

    ghost stands = { λ book office. book ≡ office };

    ghost is_reliable = { λ _. Unit {0} };

    ghost is_open = { λ _. Unit {0} };

    ghost faults = { λ _. 0 };

    ghost Left = { Unit {0} };

    ghost may_leave = { λ _ _. ⊥ };

    ghost opens_as = { λ _ _. ⊥ };

    ghost may_fail = { λ why. why ≡ Memory };

    fn caller_of(&mut self, key: &SecretKey) -> Result<Option<Caller>, Failure> {
        Ok(Book::caller_of(self, key))
    }

    fn perform<T: Drop, F: FnOnce(&Reply) -> Result<T, AllocError>>(
        &mut self,
        call: Call,
        show: F,
    ) -> Result<T, Failure> {
        match Book::perform(self, call, show) {
            Ok(shown) => Ok(shown),
            Err(AllocError) => Err(Failure::Memory),
        }
    }
}
