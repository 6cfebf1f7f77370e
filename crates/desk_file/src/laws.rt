//! What is said of a desk in a file, as an office.
ghost use Rattle.desk_file.specs.DiskOffice.{IsItsTables};

use crate::disk::DiskDesk;
use any_office::Office;
use sqlite::Alter;

/// What is said of a desk in a file as an office is said of its tables, as the connection to the file
/// shows them: the office that it stores is the one for which they stand.
pub fn a_desk_is_its_tables<S: Alter>()
    ensures { IsItsTables S.Store ⟦<DiskDesk<S> as Office>⟧ }
{}
