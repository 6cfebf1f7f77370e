//! What a replay writes is the texts of a run.
ghost use Rattle.laws_text.specs.ReplayLaws.{AlikeReplaysAreIsolated, ReplaysAreIsolated, ReplaysKeepSecrets, ReplaysMakeTheCalls, ReplaysAnswerTheRun, ReplaysWriteThem};

use crate::texts::texts_show_no_more;
use replay::laws::lines_are_answered_in_turn;

/// What a replay writes for its lines is one text for each line that is not empty, and the texts
/// for those that ask calls are those of the run of these calls: each is the text of the reply,
/// with a line feed.
pub fn replays_show_runs()
    ensures written { ReplaysWriteThem }
    ensures calls { ReplaysMakeTheCalls }
    ensures holds { ReplaysAnswerTheRun }
{
    lines_are_answered_in_turn();
}

/// So two replays, any of whose lines may have failed, are isolated and keep secrets. From the
/// empty office, or from two offices that are one to a party: where the calls that their lines ask
/// show the party the same, the lines that answer it are the same bytes, one for one. From two
/// offices that are the same but for votes of some voters on a resolution: where the calls differ
/// in such votes alone, so are the lines that answer the office, but for the result of that
/// resolution, and before its declaration those that answer every party that is none of the voters.
pub fn replays_show_no_more()
    ensures isolated { ReplaysAreIsolated }
    ensures alike { AlikeReplaysAreIsolated }
    ensures secret { ReplaysKeepSecrets }
{
    texts_show_no_more();
}
