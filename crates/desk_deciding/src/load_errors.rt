//! Why rows are not read where their lists are no book's.
ghost use Rattle.std.specs.Prelude.{◌≡◌};
ghost use Rattle.desk_deciding.specs.LoadErrors.{fault_of_book};

use meeting_core::BookFault;
use sql_load::LoadError;

/// Why rows are not read where they are no office's, or memory runs out.
pub fn fault_of_book(fault: BookFault) -> LoadError
    ensures { result ≡ fault_of_book fault }
{
    match fault {
        BookFault::NoOffice => LoadError::NoOffice,
        BookFault::Memory => LoadError::Memory,
    }
}
