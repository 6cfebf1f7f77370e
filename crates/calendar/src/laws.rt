//! What the definitions of the texts say: the numbers of three days and three moments, and that
//! no two texts spell one day or one moment.
ghost use Rattle.std.specs.Prelude.{◌≡◌, ℕ, List, Some, codes};
ghost use Rattle.calendar.specs.DateTexts.{day_of, moment_of};

/// 1900-01-01 is day 0, 1970-01-01 day 25,567 and 2999-12-31 day 401,766.
pub fn days_of_texts()
    ensures first { day_of (codes "1900-01-01") ≡ Some 0 }
    ensures epoch { day_of (codes "1970-01-01") ≡ Some 25567 }
    ensures last { day_of (codes "2999-12-31") ≡ Some 401766 }
{}

/// The first moment, that of 1970-01-01T00:00:00 and the last.
pub fn moments_of_texts()
    ensures first { moment_of (codes "1900-01-01T00:00:00") ≡ Some 0 }
    ensures epoch { moment_of (codes "1970-01-01T00:00:00") ≡ Some 2208988800 }
    ensures last { moment_of (codes "2999-12-31T23:59:59") ≡ Some 34712668799 }
{}

/// No two texts spell one day.
pub fn one_text_a_day()
    ensures { (s t : List ℕ) (n : ℕ) → day_of s ≡ Some n → day_of t ≡ Some n → s ≡ t }
{}

/// No two texts spell one moment.
pub fn one_text_a_moment()
    ensures { (s t : List ℕ) (n : ℕ) → moment_of s ≡ Some n → moment_of t ≡ Some n → s ≡ t }
{}
