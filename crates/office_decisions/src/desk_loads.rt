//! The loading of the lists of the whole desk: its closed days and its keys.
ghost use Rattle.std.specs.Prelude.{◌≡◌, true, IfOk, IsOk};
ghost use Rattle.desk_words.specs.KeyRows.{same_keys};
ghost use Rattle.desk_words.specs.Rulings.{ruled_answer};
ghost use Rattle.office_decisions.specs.RequestLimits.{if_any, keeps_limits};
ghost use Rattle.office_decisions.specs.DeskRulings.{closed_ruling, keys_ruling, same_days};

use desk_words::{Answer, Change, Day, DayList, KeyRows, Reply, reply_unchanged, same_keys};
use office_days::Closed;
use std::alloc::AllocError;

fn same_days(held: &[Day], days: &[Day]) -> bool
    ensures { result ≡ same_days held.now days.now }
{
    held == days
}

/// The answer to a list of closed days (section 1173): `Same` where it is the one that is held, and
/// else `Loaded`, which replaces it. The error is want of memory; `Same` takes none.
pub fn load_days(held: &Closed, days: &DayList) -> Result<Answer<Change>, AllocError>
    ensures answer { IfOk result (λ a. a ≡ ruled_answer (closed_ruling held.now days.now)) }
    ensures limits { IfOk result (λ a. if_any keeps_limits a.change ≡ true) }
    ensures same { same_days held.now days.now ≡ true → IsOk result }
{
    if same_days(held.days(), days.as_slice()) {
        return Ok(reply_unchanged(Reply::Same));
    }
    Ok(Answer {
        reply: Reply::Loaded,
        change: Some(Change::SetClosedDays(days.copy()?)),
    })
}

/// The answer to a list of keys: `Same` where it is the one that is held, and else `Loaded`, which
/// replaces it. The error is want of memory; `Same` takes none.
pub fn load_keys(held: &KeyRows, rows: &KeyRows) -> Result<Answer<Change>, AllocError>
    ensures answer { IfOk result (λ a. a ≡ ruled_answer (keys_ruling held.now rows.now)) }
    ensures limits { IfOk result (λ a. if_any keeps_limits a.change ≡ true) }
    ensures same { same_keys held.now rows.now ≡ true → IsOk result }
{
    if same_keys(held.as_slice(), rows.as_slice()) {
        return Ok(reply_unchanged(Reply::Same));
    }
    Ok(Answer {
        reply: Reply::Loaded,
        change: Some(Change::SetKeys(rows.copy()?)),
    })
}
