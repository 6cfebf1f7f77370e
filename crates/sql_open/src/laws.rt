//! What is known of the tables of a file as it is opened.
ghost use Rattle.sql_open.specs.Crashes.{OpensMoved};
ghost use Rattle.sql_open.specs.Opened.{OpensFirst};
ghost use Rattle.sql_open.specs.Rising.{FoundRowsRise};
ghost use Rattle.sql_open.specs.WholeDesk.{OpensAgain};

use sqlite::Alter;

/// The numbers of the rows of each table rise, in whatever files hold.
pub fn found_rows_rise()
    ensures { FoundRowsRise }
{}

/// `open` opens the office that a crash leaves whole. Where a connection shows tables that a crash
/// may leave of a desk, and a crash leaves an office of it whole, what `open` gives stands for that
/// office, as its clause on whole tables says.
pub fn opens_again<S: Alter>()
    ensures { OpensAgain S.Store }
{}

/// Tables of version 1 that `open` opens stand for the office that they held, and a crash leaves it
/// whole. Its clauses on known tables and on what stands say so.
pub fn opens_first<S: Alter>()
    ensures { OpensFirst S.Store }
{}

/// `open` opens the office of a desk of version 1 whatever a crash leaves of it, before it is moved,
/// while it is moved and after: its tables in version 1 or in version 2, whole.
pub fn opens_moved<S: Alter>()
    ensures { OpensMoved S.Store }
{}
