//! The keys and the closed days.
ghost use Rattle.std.specs.Prelude.{◌≡◌, IsTrue};
ghost use Rattle.desk_words.specs.SortedLists.{is_day_list};
ghost use Rattle.desk_words.specs.declared.change.Change.TheVariants as change;
ghost use Rattle.sql_write.specs.Writes.{Rewrites, Writes, any_records, no_days};
ghost use Rattle.sql_write.specs.Writes.{days_added, keys_added};

use desk_words::{Day, DayList, KeyRow, KeyRows};
use sql_desk_tables::closed::ClosedDays;
use sql_desk_tables::keys::Keys;
use sql_desk_tables::{closed, keys};
use sql_stored::empty;
use sqlite::{Alter, Error, Transaction};

fn add_keys<S: Alter>(tx: &mut Transaction<'_, S>, keys: &[KeyRow]) -> Result<(), Error>
    ensures same_reference { tx.new.conn.ghost_name ≡ tx.old.conn.ghost_name }
    ensures turns { Rewrites S.Store tx.old.conn.now tx.new.conn.now result any_records
        (keys_added keys.now) }
{
    for key in keys {
        keys::add(tx, key)?;
    }
    Ok(())
}

/// Puts the keys in place of those that are held. The error is what the database answered.
pub(crate) fn set_keys<S: Alter>(tx: &mut Transaction<'_, S>, keys: &KeyRows) -> Result<(), Error>
    ensures same_reference { tx.new.conn.ghost_name ≡ tx.old.conn.ghost_name }
    ensures writes { Writes S.Store tx.old.conn.now tx.new.conn.now result
        (change.SetKeys keys.now) }
{
    empty::<Keys, S>(tx)?;
    add_keys(tx, keys.as_slice())
}

/// Adds closed days, which ascend, where there are none.
fn add_days<S: Alter>(tx: &mut Transaction<'_, S>, days: &[Day]) -> Result<(), Error>
    requires { IsTrue (is_day_list days.now) }
    ensures same_reference { tx.new.conn.ghost_name ≡ tx.old.conn.ghost_name }
    ensures turns { Rewrites S.Store tx.old.conn.now tx.new.conn.now result no_days
        (days_added days.now) }
{
    for day in days {
        closed::add(tx, *day)?;
    }
    Ok(())
}

/// Puts the closed days in place of those that are held. The error is what the database answered.
pub(crate) fn set_closed_days<S: Alter>(
    tx: &mut Transaction<'_, S>,
    days: &DayList,
) -> Result<(), Error>
    ensures same_reference { tx.new.conn.ghost_name ≡ tx.old.conn.ghost_name }
    ensures writes { Writes S.Store tx.old.conn.now tx.new.conn.now result
        (change.SetClosedDays days.now) }
{
    empty::<ClosedDays, S>(tx)?;
    add_days(tx, days.as_slice())
}
