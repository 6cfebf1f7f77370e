//! Rows of the register, and their shares.
ghost use Rattle.std.specs.Prelude.{◌≡◌, true};
ghost use Rattle.std.specs.Option.{option_copied};
ghost use Rattle.desk_words.specs.Ordered.{ascends_by};
ghost use Rattle.desk_words.specs.Registers.{member_before};
ghost use Rattle.proxy_rules.specs.Shares.{row_of, shares_of};

use desk_words::{HolderKind, Party, RegisterRow};
use seq::find_by_key;

/// A member's row in a register, found in about as many steps as its length has binary digits.
pub fn find_row(register: &[RegisterRow], member: Party) -> Option<&RegisterRow>
    requires { ascends_by member_before register.now ≡ true }
    ensures { option_copied result ≡ row_of register.now member }
{
    find_by_key(register, &member)
}

/// How many shares a row has, in any rule of a meeting. Treasury shares are none (section 726).
pub fn shares(row: &RegisterRow) -> u64
    ensures { result ≡ shares_of row.now }
{
    match row.kind {
        HolderKind::Individual | HolderKind::Corporation => row.shares,
        HolderKind::Treasury => 0,
    }
}
