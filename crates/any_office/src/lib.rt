//! One office behind one trait: in memory, or in the tables of a database. What asks an office is
//! written and proved over the trait, once.
#![tactic(auto)]

mod book;
pub mod laws;

ghost use Rattle.std.specs.Prelude.{◌≡◌, ℕ, IfErr, IfOk, None, Ok, OnOk};
ghost use Rattle.std.specs.Fn.{FnOnceReturnsAt};
ghost use Rattle.any_office.specs.StoredOffice.{HoldsOfOffice, IsAfterCall, IsKnownIfOpen};
ghost use Rattle.any_office.specs.StoredOffice.{IsTransition, LeavesAtMost, LeavesOnly, made_by};
ghost use Rattle.desk_words.specs.declared.office.OfficeLists.{OfficeLists};
ghost use Rattle.desk_words.specs.declared.reply.Failure.{Failure};
ghost use Rattle.meeting_core.specs.KeyHolders.{caller_with};
ghost use Rattle.meeting_core.specs.Step.{decided, stepped};

use desk_words::{Call, Caller, Failure, Reply, SecretKey};
use std::alloc::AllocError;

/// Where an office is stored. A device under it may fail or lie. So what is read and replied is
/// promised where it is reliable afterwards, and what it stores then where it is open too. An
/// office in memory is always both.
pub trait Office {
    /// It stores this office.
    ghost stands: { Self → OfficeLists → Type 0 };

    /// So far its devices returned what was written to them.
    ghost is_reliable: { Self → Type 0 };

    /// It can still be asked.
    ghost is_open: { Self → Type 0 };

    /// How often its devices failed or refused, counted up to a full count.
    ghost faults: { Self → ℕ };

    /// What a crash may leave of it.
    ghost Left: { Type 0 };

    /// A crash now may leave this.
    ghost may_leave: { Self → Self.Left → Type 0 };

    /// What a crash left is opened as this office.
    ghost opens_as: { Self.Left → OfficeLists → Type 0 };

    /// Why a call on it may fail.
    ghost may_fail: { Failure → Type 0 };

    /// The caller whose key this is; none exactly where no key equals it.
    fn caller_of(&mut self, key: &SecretKey) -> Result<Option<Caller>, Failure>
        ensures found { HoldsOfOffice is_reliable stands self.old self.new
            (λ office. IfOk result (λ caller. caller ≡ caller_with office.keys key.now)) }
        ensures cause { IfErr result may_fail }
        ensures leaves { IsTransition is_reliable is_open stands faults None self.old self.new }
        ensures stays_open { OnOk result (is_reliable self.new → is_open self.new) }
        ensures settled { HoldsOfOffice is_reliable stands self.old self.new
            (λ office. OnOk result (LeavesOnly may_leave opens_as self.new office)) }
        ensures crash { is_reliable self.new → IsKnownIfOpen is_open stands self.old
            → LeavesAtMost may_leave self.old self.new (λ _. ⊥) };

    /// Makes one call: what it stores is then the office after the step. `show` is asked once for
    /// what is answered of the reply, before the call is made to last. After a failure, that of
    /// `show` included, the office is as it was.
    ///
    /// After an answer a crash leaves the office after the step, and nothing else. After a failure it
    /// leaves what it left before, or, where it could be asked, the office after the step.
    fn perform<T: Drop, F: FnOnce(&Reply) -> Result<T, AllocError>>(
        &mut self,
        call: Call,
        show: F,
    ) -> Result<T, Failure>
        requires callable { F.IsAlwaysCallable show }
        ensures done { HoldsOfOffice is_reliable stands self.old self.new (λ office. IfOk result
            (λ t. FnOnceReturnsAt F.FnOnce show (decided office call).reply (Ok t))) }
        ensures cause { IfErr result may_fail }
        ensures leaves { IsTransition is_reliable is_open stands faults (made_by result call)
            self.old self.new }
        ensures stays_open { OnOk result (is_reliable self.new → is_open self.new) }
        ensures settled { HoldsOfOffice is_reliable stands self.old self.new
            (λ office. OnOk result
            (LeavesOnly may_leave opens_as self.new (stepped office call))) }
        ensures crash { is_reliable self.new → LeavesAtMost may_leave self.old self.new
            (IsAfterCall is_open stands opens_as self.old call) };
}
