//! Laws of replays.
ghost use Rattle.replay.specs.Transcript.{LinesAreAnsweredInTurn};

/// What is written for the lines of a replay, which are the replies of the run of the calls that
/// they ask, is written line by line: each line's own answer, in the office after the lines before
/// it.
pub fn lines_are_answered_in_turn()
    ensures { LinesAreAnsweredInTurn }
{}
