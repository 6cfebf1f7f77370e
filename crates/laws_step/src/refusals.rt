//! How calls are refused.
ghost use Rattle.laws_step.specs.RefusalLaws.{ConditionsStandInOrder, RefusedCallsHaveNoChange, RefusedCallsLeaveTheOffice, TheLowestRefusalIsAnswered};

/// Of the conditions under which a call is refused, the lowest number that holds is answered.
pub fn lowest_refusal()
    ensures order { ConditionsStandInOrder }
    ensures lowest { TheLowestRefusalIsAnswered }
{}

/// A refused call changes nothing, whether a party or the office calls: its answer has no change,
/// and the office after it is the office before it.
pub fn refused_calls_change_nothing()
    ensures change { RefusedCallsHaveNoChange }
    ensures office { RefusedCallsLeaveTheOffice }
{}
