//! Laws of the definitions by which the contracts speak.
ghost use Rattle.poll_rules.specs.MajorityLaw.{CarriedByMoreThanHalf};

/// Whatever is carried, of either kind, has more votes for it than against it.
pub fn carried_by_more_than_half()
    ensures { CarriedByMoreThanHalf }
{}
