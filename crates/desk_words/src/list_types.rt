//! The lists of resolutions, keys and closed days.
ghost use Rattle.std.specs.Prelude.{◌≡◌, ◌<◌, ◌↔◌, ℕ, IfOk, Err, Some, None, IsTrue, false, [], Contains, IsPermutation};
ghost use Rattle.seq.specs.Ordered.{differ_by};
ghost use Rattle.std.specs.List.{list_all, zip};
ghost use Rattle.desk_words.specs.KeyRows.{same_key_row, same_keys};
ghost use Rattle.desk_words.specs.SortedLists.{same_secret};
ghost use Rattle.desk_words.specs.declared.list_types.ListFault.TheVariants.{Limit, Memory};

use crate::caller::KeyRow;
use crate::limits::{MOST_CLOSED_DAYS, MOST_KEYS, MOST_RESOLUTIONS};
use crate::records::Resolution;
use calendar::Day;
use seq::{ascend, in_order_once, into_order};
use std::alloc::{AllocError, Global};
use std::marker::Model;

/// Why a list was not made.
#[derive(Clone, Copy, PartialEq, Eq)]
pub enum ListFault {
    /// The list breaks the limits of its type.
    Limit,
    /// An allocation was refused. The lists of this crate take no memory, so none of them answers
    /// it.
    Memory,
}

/// The resolutions of a meeting, numbered from 1: 1 to `MOST_RESOLUTIONS` of them.
#[derive(Clone, Drop)]
pub struct Resolutions {
    resolutions: Vec<Resolution>,
}

impl Model for Resolutions {
    ghost use Rattle.std.specs.Prelude.{List, IsTrue};
    ghost use Rattle.desk_words.specs.declared.records.Resolution.{Resolution};

    ghost Value = { List Resolution };

    ghost use Rattle.desk_words.specs.SortedLists.{are_resolutions};

    ghost view = { λ a. a.resolutions.items };

    ghost invariant = { λ a. IsTrue (are_resolutions a.resolutions.items) };
}

impl Resolutions {
    ghost use Rattle.desk_words.specs.SortedLists.{are_resolutions};

    /// The list of these resolutions. The fault is `Limit` exactly where they are not
    /// 1 to `MOST_RESOLUTIONS`.
    pub fn new(resolutions: Vec<Resolution>) -> Result<Resolutions, ListFault>
        ensures value { IfOk result (λ r. r ≡ resolutions.items) }
        ensures limit { (result ≡ Err Limit) ↔ (are_resolutions resolutions.items ≡ false) }
        ensures no_memory { (result ≡ Err Memory) → ⊥ }
    {
        if resolutions.is_empty() || resolutions.len() > MOST_RESOLUTIONS {
            return Err(ListFault::Limit);
        }
        Ok(Resolutions { resolutions })
    }

    /// The same resolutions again. The error is want of memory.
    pub fn copy(&self) -> Result<Resolutions, AllocError>
        ensures value { IfOk result (λ r. r ≡ self.now) }
        ensures valid { IsTrue (are_resolutions self.now) }
    {
        // This opens the value, so that what its type keeps is known.
        let _ = &self.resolutions;
        self.clone()
    }

    /// The resolutions, in the order of their numbers.
    pub fn as_slice(&self) -> &[Resolution]
        ensures value { result.now ≡ self.now }
        ensures valid { IsTrue (are_resolutions self.now) }
    {
        self.resolutions.as_slice()
    }
}

/// The keys of a desk, in the order of callers: at most `MOST_KEYS`, with no caller and no key
/// twice.
#[derive(Clone, Drop)]
pub struct KeyRows {
    rows: Vec<KeyRow>,
}

impl Model for KeyRows {
    ghost use Rattle.std.specs.Prelude.{List, IsTrue};
    ghost use Rattle.desk_words.specs.declared.caller.KeyRow.{KeyRow};

    ghost Value = { List KeyRow };

    ghost use Rattle.desk_words.specs.SortedLists.{is_key_list};

    ghost view = { λ a. a.rows.items };

    ghost invariant = { λ a. IsTrue (is_key_list a.rows.items) };
}

/// The closed days, in order, each once: at most `MOST_CLOSED_DAYS` of them (section
/// 1173).
#[derive(Clone, Drop)]
pub struct DayList {
    days: Vec<Day>,
}

impl Model for DayList {
    ghost use Rattle.std.specs.Prelude.{ℕ, List, IsTrue};

    ghost Value = { List ℕ };

    ghost use Rattle.desk_words.specs.SortedLists.{is_day_list};

    ghost view = { λ a. a.days.items };

    ghost invariant = { λ a. IsTrue (is_day_list a.days.items) };
}

impl DayList {
    ghost use Rattle.desk_words.specs.SortedLists.{is_day_list, day_count, day_list_of};

    /// The days, in order, each once. The fault is `Limit` exactly where there are more than
    /// `MOST_CLOSED_DAYS` different days.
    pub fn new(days: Vec<Day>) -> Result<DayList, ListFault>
        ensures value { IfOk result (λ r. day_list_of days.items ≡ Some r) }
        ensures days { IfOk result (λ r. (day : ℕ) → Contains r day ↔ Contains days.items day) }
        ensures valid { IfOk result (λ r. IsTrue (is_day_list r)) }
        ensures limit { (result ≡ Err Limit) ↔ (MOST_CLOSED_DAYS < day_count days.items) }
        ensures no_memory { (result ≡ Err Memory) → ⊥ }
    {
        let days = in_order_once(days);
        if days.len() > MOST_CLOSED_DAYS {
            return Err(ListFault::Limit);
        }
        Ok(DayList { days })
    }

    /// No closed days.
    pub fn empty(alloc: Global) -> DayList
        ensures { result ≡ [] }
    {
        DayList {
            days: Vec::new(alloc),
        }
    }

    /// The same days again. The error is want of memory.
    pub fn copy(&self) -> Result<DayList, AllocError>
        ensures value { IfOk result (λ r. r ≡ self.now) }
        ensures valid { IsTrue (is_day_list self.now) }
    {
        let days = self.days.clone()?;
        Ok(DayList { days })
    }

    /// The days, in order.
    pub fn as_slice(&self) -> &[Day]
        ensures value { result.now ≡ self.now }
        ensures valid { IsTrue (is_day_list self.now) }
    {
        self.days.as_slice()
    }
}

/// Whether no two keys are the same. To tell, it puts the rows in the order of keys, in place.
fn secrets_differ(rows: &mut Vec<KeyRow>) -> bool
    ensures differ { result ≡ differ_by same_secret rows.old.items }
    ensures rows { IsPermutation rows.old.items rows.new.items }
{
    rows.sort_unstable_by_key(|row| row.secret);
    rows.is_sorted_by(|first, second| first.secret.cmp(&second.secret).is_lt())
}

impl KeyRows {
    ghost use Rattle.desk_words.specs.SortedLists.{is_key_list, key_list_of};

    /// The list of these keys. The fault is `Limit` exactly where there are more than
    /// `MOST_KEYS`, or a caller or a key stands twice. It takes no memory.
    pub fn new(rows: Vec<KeyRow>) -> Result<KeyRows, ListFault>
        ensures value { IfOk result (λ r. key_list_of rows.items ≡ Some r) }
        ensures rows { IfOk result (λ r. IsPermutation rows.items r) }
        ensures valid { IfOk result (λ r. IsTrue (is_key_list r)) }
        ensures limit { (result ≡ Err Limit) ↔ (key_list_of rows.items ≡ None) }
        ensures no_memory { (result ≡ Err Memory) → ⊥ }
    {
        let mut rows = rows;
        if rows.len() > MOST_KEYS || !secrets_differ(&mut rows) {
            return Err(ListFault::Limit);
        }
        into_order(&mut rows);
        if !ascend(&rows) {
            return Err(ListFault::Limit);
        }
        Ok(KeyRows { rows })
    }

    /// No keys.
    pub fn empty(alloc: Global) -> KeyRows
        ensures { result ≡ [] }
    {
        KeyRows {
            rows: Vec::new(alloc),
        }
    }

    /// The same keys again. The error is want of memory.
    pub fn copy(&self) -> Result<KeyRows, AllocError>
        ensures value { IfOk result (λ r. r ≡ self.now) }
        ensures valid { IsTrue (is_key_list self.now) }
    {
        let rows = self.rows.clone()?;
        Ok(KeyRows { rows })
    }

    /// The keys, in the order of callers.
    pub fn as_slice(&self) -> &[KeyRow]
        ensures value { result.now ≡ self.now }
        ensures valid { IsTrue (is_key_list self.now) }
    {
        self.rows.as_slice()
    }
}

fn each_same_key(rows: &[KeyRow], others: &[KeyRow]) -> bool
    ensures { result ≡ list_all (λ pair. same_key_row pair.0 pair.1) (zip rows.now others.now) }
{
    rows.iter().zip(others).all(|(row, other)| row.is(other))
}

/// Whether both are the same rows. For the rows of lists of keys, which stand in the order of
/// callers, that is whether they are the same set of rows.
pub fn same_keys(rows: &[KeyRow], others: &[KeyRow]) -> bool
    ensures test { result ≡ same_keys rows.now others.now }
    ensures same { IsTrue result ↔ (rows.now ≡ others.now) }
{
    rows.len() == others.len() && each_same_key(rows, others)
}
