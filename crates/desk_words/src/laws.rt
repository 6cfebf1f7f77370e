//! Laws of the words.
ghost use Rattle.desk_words.specs.RowEquality.{SameRowsAreEqual};
ghost use Rattle.desk_words.specs.OfficeLimits.{HoursAre, OfficeLimitsAre};

/// Two lists of rows are the same, field by field, exactly where they are equal: no field of a row
/// is left out.
pub fn same_rows_are_equal()
    ensures { SameRowsAreEqual }
{}

/// Definitions cite each limit by its constant; these are its numbers.
pub fn limits_are()
    ensures { OfficeLimitsAre }
{}

/// The hours of working time by which cutoffs and late polls go (sections 327 and 330).
pub fn hours_are()
    ensures { HoursAre }
{}
