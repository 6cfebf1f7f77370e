//! Lists in order, and what a caller's contract learns of them at types of its own.
ghost use Rattle.std.specs.Prelude.{◌≡◌, ◌==◌, ◌↔◌, ℕ, true, find, Contains};
ghost use Rattle.std.specs.Ordering.{nat_cmp};
ghost use Rattle.unit_tests.specs.declared.ordered_lists.Row.{Row};
ghost use Rattle.seq.specs.Ordered.{ascends_by, differ_by, key_before, same_key};

use seq::{Keyed, Listing, ascend, find_by_key, in_order_once, into_order};
use std::alloc::Global;
use std::marker::Model;
use std::test::Fail;

/// A row of a register, kept in the order of its number.
#[derive(Clone, Copy, PartialEq, Eq)]
struct Row {
    number: u64,
    seat: u32,
}

impl Keyed for Row {
    type Key = u64;

    ghost key_of = { λ r. r.number };

    fn key(&self) -> u64 {
        self.number
    }
}

/// A day, seen as its number.
#[derive(Clone, Copy, PartialEq, Eq, PartialOrd, Ord)]
struct Day {
    number: u32,
}

impl Model for Day {
    ghost Value = { ℕ };

    ghost view = { λ d. d.number };

    ghost inverse = { λ n. record { number = n } };
}

fn rows_ascend(rows: &[Row]) -> bool
    ensures { result ≡ ascends_by (key_before (λ (r : Row). r.number) nat_cmp) rows.now }
{
    ascend(rows)
}

fn row_of(rows: &[Row], number: u64) -> Option<Row>
    requires { ascends_by (key_before (λ (r : Row). r.number) nat_cmp) rows.now ≡ true }
    ensures { result ≡ find (λ (r : Row). r.number == number) rows.now }
{
    find_by_key(rows, &number).copied()
}

fn order_rows(rows: &mut Vec<Row>)
    ensures { ascends_by (key_before (λ (r : Row). r.number) nat_cmp) rows.new.items
        ≡ differ_by (same_key (λ (r : Row). r.number) nat_cmp) rows.old.items }
{
    into_order(rows);
}

fn different_days(days: Vec<Day>) -> Vec<Day>
    ensures { (x : ℕ) → Contains result.items x ↔ Contains days.items x }
{
    in_order_once(days)
}

/// The seat of a row by its number, where the rows are put in order first.
fn seat_of(alloc: Global, number: u64) -> Result<Option<u32>, Fail> {
    let mut rows = Vec::new(alloc);
    for (number, seat) in [(7, 1), (2, 2), (4, 3)] {
        rows.push(Row { number, seat })?;
    }
    order_rows(&mut rows);
    if !rows_ascend(&rows) {
        return Err("two rows of one number".into());
    }
    Ok(row_of(&rows, number).map(|row| row.seat))
}

/// A number, and the seat of its row, if there is one.
const SEATS: &[(u64, Option<u32>)] = &[
    (2, Some(2)),
    (4, Some(3)),
    (7, Some(1)),
    (1, None),
    (5, None),
    (8, None),
];

#[test]
fn a_row_is_found_by_its_number(rt: HostRuntime) -> Result<(), Fail> {
    for &(number, seat) in SEATS {
        assert!(rt; seat_of(rt.alloc(), number)? == seat, "{number}");
    }
    Ok(())
}

#[test]
fn neighbours_are_compared(rt: HostRuntime) {
    let row = |number: u64| Row { number, seat: 0 };
    assert!(rt; rows_ascend(&[]) && rows_ascend(&[row(4), row(5), row(9)]));
    assert!(rt; !rows_ascend(&[row(4), row(9), row(5)]) && !rows_ascend(&[row(4), row(4)]));
}

#[test]
fn days_are_counted_once(rt: HostRuntime) -> Result<(), Fail> {
    let day = |number: u32| Day { number };
    let days = vec![in rt.alloc(); day(9), day(3), day(9), day(5)]?;
    assert!(rt; different_days(days).as_slice() == [day(3), day(5), day(9)].as_slice());
    Ok(())
}

/// A list of numbers, one put in order and the last of them written anew, and its copy.
fn listed(alloc: Global) -> Result<(Listing<u64>, Listing<u64>), Fail> {
    let mut numbers = Listing::from_vec(vec![in alloc; 1, 2, 3]?);
    numbers.set(1, 7);
    let mut copied = numbers.clone()?;
    copied.push(6)?;
    Ok((numbers, copied))
}

#[test]
fn a_copy_is_a_list_of_its_own(rt: HostRuntime) -> Result<(), Fail> {
    let (numbers, copied) = listed(rt.alloc())?;
    assert!(rt; numbers.as_slice() == [1, 7, 3].as_slice());
    assert!(rt; copied.into_vec().as_slice() == [1, 7, 3, 6].as_slice());
    Ok(())
}
