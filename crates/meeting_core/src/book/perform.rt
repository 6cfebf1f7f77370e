//! A call, made.
ghost use Rattle.std.specs.Prelude.{◌≡◌, true, Err, IfErr, IfOk, IsTrue, Ok, OnErr};
ghost use Rattle.std.specs.Fn.{FnOnceReturnsAt};
ghost use Rattle.desk_words.specs.Office.{is_office};
ghost use Rattle.meeting_core.specs.Step.{decided, is_at_once_to, needs_no_memory, stepped};

use crate::book::Book;
use desk_words::{Call, Reply};
use std::alloc::AllocError;

impl Book {
    /// Makes one call: the book is then the office after the step. `show` is asked once for what
    /// is answered of the reply, before the change is made. The error is want of memory, that of
    /// `show` included, and the book is then as it was; where `decide` needs none it is that of
    /// `show`.
    pub fn perform<T: Drop, F: FnOnce(&Reply) -> Result<T, AllocError>>(
        &mut self,
        call: Call,
        show: F,
    ) -> Result<T, AllocError>
        requires callable { F.IsAlwaysCallable show }
        ensures done { IfOk result (λ t.
            FnOnceReturnsAt F.FnOnce show (decided self.old call).reply (Ok t)
            × (self.new ≡ stepped self.old call)) }
        ensures same { OnErr result (self.new ≡ self.old) }
        ensures valid { IsTrue (is_office self.new) }
        ensures sure { needs_no_memory self.old call.caller call.request ≡ true → IfErr result
            (λ e. FnOnceReturnsAt F.FnOnce show (decided self.old call).reply (Err e)) }
        ensures refusals { is_at_once_to call.caller (decided self.old call) ≡ true
            → IfErr result
            (λ e. FnOnceReturnsAt F.FnOnce show (decided self.old call).reply (Err e)) }
    {
        let answer = self.decision(&call)?;
        let shown = show(&answer.reply)?;
        self.apply_if_any(answer.change)?;
        Ok(shown)
    }
}
