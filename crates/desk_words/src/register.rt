//! Registers of members.
ghost use Rattle.std.specs.Prelude.{◌≡◌, ◌≤◌, ◌↔◌, IfOk, Err, Some, None, IsTrue, length, IsPermutation};
ghost use Rattle.std.specs.List.{list_all, zip};
ghost use Rattle.desk_words.specs.SameRows.{same_row, same_rows};
ghost use Rattle.desk_words.specs.declared.list_types.ListFault.TheVariants.{Limit, Memory};

use crate::limits::{MOST_PENCE, MOST_ROWS, MOST_SHARES};
use crate::list_types::ListFault;
use crate::records::RegisterRow;
use seq::{Listing, ascend, into_order};
use std::alloc::AllocError;
use std::marker::Model;
use vocabulary::MOST_PLACES;

/// The rows of a register of members (section 113), in the order of members: 1 to `MOST_ROWS` rows
/// of different members, each of 1 to `MOST_PLACES` shares with at most `MOST_PENCE` paid up, and
/// no more than `MOST_SHARES` in all.
#[derive(Clone, Drop)]
pub struct Register {
    rows: Vec<RegisterRow>,
}

impl Model for Register {
    ghost use Rattle.std.specs.Prelude.{List, IsTrue};
    ghost use Rattle.desk_words.specs.declared.records.RegisterRow.{RegisterRow};

    ghost Value = { List RegisterRow };

    ghost use Rattle.desk_words.specs.Registers.{is_register};

    ghost view = { λ a. a.rows.items };

    ghost invariant = { λ a. IsTrue (is_register a.rows.items) };
}

impl Register {
    ghost use Rattle.desk_words.specs.Registers.{is_holding, all_shares, keep_limits, is_register, register_of};

    fn has_limits(row: &RegisterRow) -> bool
        ensures { result ≡ is_holding row.now }
    {
        1 <= row.shares && row.shares <= MOST_PLACES && row.paid <= MOST_PENCE
    }

    fn have_limits(rows: &[RegisterRow]) -> bool
        ensures { result ≡ list_all is_holding rows.now }
    {
        rows.iter().all(|row| Register::has_limits(row))
    }

    fn total(rows: &[RegisterRow]) -> u64
        requires few { length rows.now ≤ MOST_ROWS }
        requires small { IsTrue (list_all is_holding rows.now) }
        ensures { result ≡ all_shares rows.now }
    {
        let mut total = 0;
        for row in rows {
            total += row.shares;
        }
        total
    }

    fn keep_limits(rows: &[RegisterRow]) -> bool
        ensures { result ≡ keep_limits rows.now }
    {
        1 <= rows.len()
            && rows.len() <= MOST_ROWS
            && Register::have_limits(rows)
            && Register::total(rows) <= MOST_SHARES
    }

    /// The register of these rows. The fault is `Limit` exactly where they are not 1 to `MOST_ROWS`
    /// rows of different members that keep the limits. It takes no memory.
    pub fn new(rows: Vec<RegisterRow>) -> Result<Register, ListFault>
        ensures value { IfOk result (λ r. register_of rows.items ≡ Some r) }
        ensures rows { IfOk result (λ r. IsPermutation rows.items r) }
        ensures valid { IfOk result (λ r. IsTrue (is_register r)) }
        ensures limit { (result ≡ Err Limit) ↔ (register_of rows.items ≡ None) }
        ensures no_memory { (result ≡ Err Memory) → ⊥ }
    {
        if !Register::keep_limits(&rows) {
            return Err(ListFault::Limit);
        }
        let mut rows = rows;
        into_order(&mut rows);
        if !ascend(&rows) {
            return Err(ListFault::Limit);
        }
        Ok(Register { rows })
    }

    /// The rows, in the order of members.
    pub fn rows(&self) -> &[RegisterRow]
        ensures value { result.now ≡ self.now }
        ensures valid { IsTrue (is_register self.now) }
    {
        self.rows.as_slice()
    }

    /// The same register again. The error is want of memory.
    pub fn copy(&self) -> Result<Register, AllocError>
        ensures value { IfOk result (λ r. r ≡ self.now) }
        ensures valid { IsTrue (is_register self.now) }
    {
        // This opens the value, so that what its type keeps is known.
        let _ = &self.rows;
        self.clone()
    }

    /// The rows as a list.
    pub fn into_listing(self) -> Listing<RegisterRow>
        ensures value { result ≡ self }
        ensures valid { IsTrue (is_register self) }
    {
        Listing::from_vec(self.rows)
    }
}

fn each_same(rows: &[RegisterRow], others: &[RegisterRow]) -> bool
    ensures { result ≡ list_all (λ pair. same_row pair.0 pair.1) (zip rows.now others.now) }
{
    rows.iter().zip(others).all(|(row, other)| row.is(other))
}

/// Whether both are the same rows. For the rows of registers, which stand in the order of members,
/// that is whether they are the same set of rows.
pub fn same_rows(rows: &[RegisterRow], others: &[RegisterRow]) -> bool
    ensures test { result ≡ same_rows rows.now others.now }
    ensures same { IsTrue result ↔ (rows.now ≡ others.now) }
{
    rows.len() == others.len() && each_same(rows, others)
}
