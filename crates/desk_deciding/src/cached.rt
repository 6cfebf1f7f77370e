//! Public records of meetings that are cached.
ghost use Rattle.std.specs.Prelude.{◌≡◌, All, IfSome, find, option_copied, option_map};
ghost use Rattle.desk_deciding.specs.CachedRecords.{IsRecordOf};
ghost use Rattle.desk_words.specs.declared.office.OfficeLists.{OfficeLists};
ghost use Rattle.party_views.specs.Views.{public_of};
ghost use Rattle.vocabulary.specs.Names.{same_name};

use desk_words::MeetingId;
use sql_load::OwnedRecord;

/// The public record of a meeting, or of a name that no meeting has.
#[derive(Drop)]
pub struct CachedRecord {
    /// The name under which it was read.
    pub meeting: MeetingId,
    /// What was read.
    pub public: OwnedRecord,
}

/// The first record of a meeting among these, if there is one.
pub fn cached_record(cached: &[CachedRecord], meeting: MeetingId) -> Option<&OwnedRecord>
    ensures is { option_copied result ≡ option_map (λ found. found.public)
        (find (λ one. same_name one.meeting meeting) cached.now) }
    ensures agrees { (office : OfficeLists) → All (IsRecordOf office) cached.now
        → IfSome result (λ public. public.now ≡ public_of office meeting) }
{
    let found = cached.iter().find(|cached| cached.meeting.is(meeting))?;
    Some(&found.public)
}
