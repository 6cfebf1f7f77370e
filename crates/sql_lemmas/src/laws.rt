//! Laws of numbers.
ghost use Rattle.sql_lemmas.specs.StoredNumbers.{OfficesFit};

/// Each number of the records of an office is below 2^63, so that none is refused as too big.
pub fn numbers_of_an_office_fit()
    ensures { OfficesFit }
{}
