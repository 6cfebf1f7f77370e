//! What is read of an office for its own calls.
ghost use Rattle.desk_words.specs.declared.request.OfficeRequest.TheVariants.{Presence};
ghost use Rattle.laws_step.specs.OfficeReads.{DeskReadIsEnough, ListsReadAreEnough};
ghost use Rattle.laws_step.specs.WrongAnswers.{a_meeting, another};
ghost use Rattle.laws_step.specs.WrongOfficeReads.{ReadsTooFew, lone_office, reads_no_presence};
ghost use Rattle.laws_step.specs.WrongOwnThings.{meeting_with_presence, quiet_meeting};
ghost use Rattle.office_decisions.specs.ListsRead.{lists_read};

use office_decisions::laws::rulings_read_no_more;

/// What the office asks in a meeting is decided alike in any two offices that agree on what its
/// answer reads of the closed days and of that meeting's lists, whatever else they hold; and so is
/// what it asks of the whole desk, where they agree on whether a meeting has the name and how many
/// there are, on the closed days, or on the keys.
pub fn what_the_office_reads_is_enough()
    ensures lists { ListsReadAreEnough lists_read }
    ensures desk { DeskReadIsEnough }
{
    rulings_read_no_more();
}

/// That law can fail: where it is not read who is present, a presence that stands already is
/// written again.
pub fn unread_presence_is_caught()
    ensures presence { ReadsTooFew reads_no_presence (lone_office quiet_meeting)
        (lone_office meeting_with_presence) a_meeting (Presence another) }
    ensures caught { ListsReadAreEnough reads_no_presence → ⊥ }
{}
