//! Laws of the definitions by which the contracts speak.
ghost use Rattle.office_decisions.specs.Early.{EarlyRefusalsStand};
ghost use Rattle.office_decisions.specs.ListsRead.{ReadMeetingsAreMeetings, RulingsReadNoMore};

/// What is ruled on a request of the office in a meeting is ruled from what the request reads of
/// the closed days and of the meeting's lists: in two offices that agree on it the ruling is the
/// same.
pub fn rulings_read_no_more()
    ensures { RulingsReadNoMore }
{}

/// What a request that reads the register reads of a meeting's lists are the lists of a meeting.
pub fn read_meetings_are_meetings()
    ensures { ReadMeetingsAreMeetings }
{}

/// A request that is refused from what is read of a meeting first is refused alike from all of the
/// meeting's lists.
pub fn early_refusals_stand()
    ensures { EarlyRefusalsStand }
{}
