//! Laws of the terms.
ghost use Rattle.vocabulary.specs.Kinds.{WordsReadBack};
ghost use Rattle.vocabulary.specs.PlaceAndTextLimits.{PlaceAndTextLimitsAre};

/// Each word reads back as the kind that it was written for.
pub fn words_read_back()
    ensures { WordsReadBack }
{}

/// Definitions cite each limit by its constant; these are its numbers.
pub fn limits_are()
    ensures { PlaceAndTextLimitsAre }
{}
