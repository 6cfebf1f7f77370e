//! The book of lists that were kept elsewhere, for callers of the library. The program makes none.
ghost use Rattle.std.specs.Prelude.{◌≡◌, false, Err, IfErr, IfOk, IfSome, IsTrue, None, Some};
ghost use Rattle.desk_words.specs.Office.{is_office};
ghost use Rattle.office_validation.specs.Validation.{office_in_order};
ghost use Rattle.meeting_core.specs.declared.book.of_lists.BookFault.TheVariants.{Memory, NoOffice};

use crate::book::Book;
use desk_words::OfficeLists;
use office_days::Closed;
use office_validation::office_checked;
use std::alloc::{AllocError, Global};

/// Why lists make no book.
#[derive(Clone, Copy, PartialEq, Eq)]
pub enum BookFault {
    /// They are no office.
    NoOffice,
    /// An allocation was refused.
    Memory,
}

impl From<AllocError> for BookFault {
    ghost from_gives = { λ _ e. e ≡ Memory };

    fn from(_refused: AllocError) -> BookFault {
        BookFault::Memory
    }
}

/// The book of an office; where there is none, `NoOffice`.
fn book_of(alloc: Global, office: Option<OfficeLists>) -> Result<Book, BookFault>
    requires { IfSome office (λ lists. IsTrue (is_office lists)) }
    ensures value { IfOk result (λ b. office ≡ Some b) }
    ensures fault { IfErr result (λ e. (office ≡ None) × (e ≡ NoOffice)) }
{
    let Some(lists) = office else {
        return Err(BookFault::NoOffice);
    };
    let OfficeLists {
        keys,
        closed,
        meetings,
    } = lists;
    Ok(Book {
        alloc,
        keys,
        closed: Closed::from_list(closed),
        meetings: meetings.into_vec(),
    })
}

impl Book {
    /// The book of some lists, as they were kept. A register is a set of rows (section 113), so
    /// each is put in the order of members first. The fault is `NoOffice`, exactly where the lists
    /// are no office then: it takes no memory.
    pub fn of_lists(alloc: Global, lists: OfficeLists) -> Result<Book, BookFault>
        ensures value { IfOk result (λ b. b ≡ office_in_order lists) }
        ensures valid { IfOk result (λ b. IsTrue (is_office b)) }
        ensures no_office { result ≡ Err NoOffice → is_office (office_in_order lists) ≡ false }
        ensures sure { IfErr result (λ e. e ≡ NoOffice) }
    {
        book_of(alloc, office_checked(alloc, lists))
    }
}
