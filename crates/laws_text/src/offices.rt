//! The texts that an office returns, wherever it is stored, are those of a run.
ghost use Rattle.std.specs.Prelude.{◌≡◌, IfOk};
ghost use Rattle.any_office.specs.StoredOffice.{HoldsOfOffice, made_by};
ghost use Rattle.any_office.specs.OfficeRuns.{LeavesOffice};
ghost use Rattle.json_replies.specs.Replies.{reply_bytes};
ghost use Rattle.meeting_core.specs.Step.{decided};
ghost use Rattle.laws_text.specs.Offices.{AlikeOfficesAreIsolated, OfficesAreIsolated, OfficesKeepSecrets, OfficesAnswerRuns};
ghost use Rattle.laws_text.specs.Offices.{IsAnsweredStored, as_json, asked_by_call};

use crate::texts::texts_show_no_more;
use any_office::Office;
use desk_words::{Call, Failure};
use json_replies::reply_text;
use std::alloc::Global;

/// The texts that an office returns, one call after another, are those of a run: each is the text
/// of the reply in the office after the calls before it, or reports a failure and no call was made;
/// and the office that is stored is the one after the run. It holds where what stores it is
/// reliable and open at the end: a desk over tables on a disk that returns what was written, an
/// office in memory always. So `texts_show_no_more` holds of these texts.
pub fn offices_show_runs<O: Office>()
    ensures { OfficesAnswerRuns O.Office }
{}

/// So two offices, whose calls came one after another, are isolated and keep secrets, however
/// replies are written. From the office that holds nothing, where the calls that were made show a
/// party the same, with all its sources on either, the texts of the replies to it are the same
/// bytes, one for one; and so they are where two offices are one to a party. Where the offices
/// are the same but for votes of some voters on a resolution, and the calls differ in such votes
/// alone, so are the texts of the replies to the office, but for the result of that resolution, and
/// before its declaration those to every party that is none of the voters.
pub fn offices_show_no_more<O: Office>()
    ensures isolated { OfficesAreIsolated O.Office }
    ensures alike { AlikeOfficesAreIsolated O.Office }
    ensures secret { OfficesKeepSecrets O.Office }
{
    texts_show_no_more();
}

/// Makes one call on an office, and gives the JSON text of its reply.
fn performed<O: Office>(alloc: Global, office: &mut O, call: Call) -> Result<Vec<u8>, Failure>
    ensures done { HoldsOfOffice O.is_reliable O.stands office.old office.new (λ before. IfOk result
        (λ text. text.items ≡ reply_bytes (decided before call).reply)) }
    ensures leaves { LeavesOffice O.Office (made_by result call) office.old office.new }
{
    office.perform(call, |reply| reply_text(alloc, reply))
}

/// Makes one call on an office, as `perform` does, and returns the JSON text of its reply. After a
/// failure, want of memory for the text included, the office is as it was.
pub fn answer_call<O: Office>(alloc: Global, office: &mut O, call: Call) -> Result<Vec<u8>, Failure>
    ensures { IsAnsweredStored O.Office as_json (asked_by_call call result) office.old office.new }
{
    performed(alloc, office, call)
}
