//! What is read of a party's own things.
ghost use Rattle.party_views.specs.RowsRead.{own_read};
ghost use Rattle.laws_step.specs.PartyReads.{ReadsEnough, RowsGiveOwnThings, RowsReadAreEnough};
ghost use Rattle.laws_step.specs.WrongAnswers.{a_member, own_vote};
ghost use Rattle.laws_step.specs.WrongOwnThings.{quiet_meeting};
ghost use Rattle.laws_step.specs.WrongReads.{ReadsTooLittle, reads_no_row};

/// The answer to a party's request is the same from all of its own things as from those that the
/// request reads, and from own things that are made of all rows as from those that are made of the
/// rows that it reads.
pub fn what_is_read_is_enough()
    ensures own { ReadsEnough own_read }
    ensures rows { RowsReadAreEnough }
{}

/// That law can fail: where a party's own holding is not read, a member's vote on its own share is
/// refused that is else recorded.
pub fn too_little_read_is_caught()
    ensures row { ReadsTooLittle reads_no_row quiet_meeting a_member own_vote }
    ensures caught { ReadsEnough reads_no_row → ⊥ }
{}

/// The rows and the public record of a party in a meeting, of whatever office, give the party's own
/// things there; where the office has no meeting of the name, they are none.
pub fn rows_give_own_things()
    ensures { RowsGiveOwnThings }
{}
