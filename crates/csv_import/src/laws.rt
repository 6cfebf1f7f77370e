//! Laws of files.
ghost use Rattle.csv_import.specs.FileLimits.{FileLimitsAre};

/// Definitions cite each limit by its constant; these are its numbers.
pub fn limits_are()
    ensures { FileLimitsAre }
{}
