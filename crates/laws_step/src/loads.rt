//! What is loaded twice.
ghost use Rattle.desk_words.specs.Changes.{empty_office};
ghost use Rattle.meeting_core.specs.Step.{decided};
ghost use Rattle.laws_step.specs.Loads.{AnswersSameAgain, HoldsWhatIsLoaded, LeavesTheOfficeOfOne, RunsAsOfOne};
ghost use Rattle.laws_step.specs.WrongLoads.{ActsNever, ActsTwice, a_load, loads_anew, shows_alone, writes_anew};

/// A file that comes twice in turn acts once. Closed days, keys or a register that are accepted, as
/// loaded or as what is held, are held after it. When they come again, closed days and keys at any
/// moment and a register at the same or any later one, they are answered as the same, without a
/// change, and all calls after them are answered as though they had come once.
pub fn loads_act_once()
    ensures held { HoldsWhatIsLoaded decided }
    ensures same { AnswersSameAgain decided }
    ensures office { LeavesTheOfficeOfOne }
    ensures run { RunsAsOfOne }
{}

/// These laws can fail: where what is held is loaded once more, and where the reply is `Same` and
/// it is written once more, a closed day that comes twice in turn acts twice; where the reply is
/// `Loaded` and nothing is written, it acts never.
pub fn wrong_loads_are_caught()
    ensures loaded { ActsTwice loads_anew empty_office a_load 0 }
    ensures written { ActsTwice writes_anew empty_office a_load 0 }
    ensures holds { ActsNever shows_alone empty_office a_load }
    ensures loaded_caught { AnswersSameAgain loads_anew → ⊥ }
    ensures written_caught { AnswersSameAgain writes_anew → ⊥ }
    ensures shown_caught { HoldsWhatIsLoaded shows_alone → ⊥ }
{}
