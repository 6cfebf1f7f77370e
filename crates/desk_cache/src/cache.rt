//! The cache of a desk: callers by their keys, and public records of meetings.
ghost use Rattle.std.specs.Prelude.{◌≡◌, false, All, IfSome, IsTrue, Option, Some};
ghost use Rattle.desk_cache.specs.Cache.{AreCallersOf, IsCacheOf};
ghost use Rattle.desk_deciding.specs.CachedRecords.{IsRecordOf};
ghost use Rattle.desk_store.specs.Cached.{valid_after};
ghost use Rattle.desk_words.specs.Changes.{applied_if_any};
ghost use Rattle.desk_words.specs.declared.change.Change.{Change};
ghost use Rattle.desk_words.specs.declared.office.OfficeLists.{OfficeLists};
ghost use Rattle.meeting_core.specs.KeyHolders.{caller_with};
ghost use Rattle.party_views.specs.Views.{public_of};

use desk_deciding::CachedRecord;
use desk_store::{OwnedRecord, StillValid};
use desk_words::{Caller, MeetingId, SecretKey};
use std::alloc::Global;
use std::collections::BTreeMap;

/// The callers, where they are valid, and none where they are not.
fn callers_if(
    alloc: Global,
    callers: BTreeMap<SecretKey, Caller>,
    valid: bool,
) -> BTreeMap<SecretKey, Caller>
    ensures same { IsTrue valid → result ≡ callers }
    ensures none { valid ≡ false → (office : OfficeLists) → AreCallersOf office result }
{
    if valid { callers } else { BTreeMap::new(alloc) }
}

/// The records, where they are valid, and none where they are not.
fn records_if(alloc: Global, records: Vec<CachedRecord>, valid: bool) -> Vec<CachedRecord>
    ensures same { IsTrue valid → result.items ≡ records.items }
    ensures none { valid ≡ false → (office : OfficeLists) → All (IsRecordOf office) result.items }
{
    if valid { records } else { Vec::new(alloc) }
}

/// The callers with one more under its key, or as they are where memory is refused for it.
fn with_caller_added(
    callers: BTreeMap<SecretKey, Caller>,
    key: SecretKey,
    caller: Caller,
) -> BTreeMap<SecretKey, Caller>
    ensures { (office : OfficeLists) → AreCallersOf office callers
        → caller_with office.keys key ≡ Some caller → AreCallersOf office result }
{
    let mut callers = callers;
    let _ = callers.insert(key, caller);
    callers
}

/// The records with one more, or as they are where memory is refused for it.
fn with_record_added(records: Vec<CachedRecord>, cached: CachedRecord) -> Vec<CachedRecord>
    ensures { (office : OfficeLists) → All (IsRecordOf office) records.items → IsRecordOf office cached
        → All (IsRecordOf office) result.items }
{
    let mut records = records;
    let _ = records.push(cached);
    records
}

/// A cache.
#[derive(Drop)]
pub(crate) struct Cache {
    callers: BTreeMap<SecretKey, Caller>,
    records: Vec<CachedRecord>,
}

impl Cache {
    /// An empty cache. It takes no memory.
    pub(crate) fn new(alloc: Global) -> Cache
        ensures { (office : OfficeLists) → IsCacheOf office result }
    {
        Cache {
            callers: BTreeMap::new(alloc),
            records: Vec::new(alloc),
        }
    }

    /// Its records of meetings.
    pub(crate) fn records(&self) -> &[CachedRecord]
        ensures { result.now ≡ self.now.records.items }
    {
        self.records.as_slice()
    }

    /// The caller whose key this is, if it is in the cache.
    pub(crate) fn caller(&self, key: &SecretKey) -> Option<Caller>
        ensures { (office : OfficeLists) → IsCacheOf office self.now
            → IfSome result (λ caller. caller_with office.keys key.now ≡ Some caller) }
    {
        self.callers.get(key).copied()
    }

    /// The cache with the caller who was found by that key. A key that nobody has is not added, and
    /// none is where memory is refused for it.
    pub(crate) fn with_caller(self, key: SecretKey, found: &Option<Caller>) -> Cache
        ensures { (office : OfficeLists) → IsCacheOf office self
            → found.now ≡ caller_with office.keys key → IsCacheOf office result }
    {
        let Cache { callers, records } = self;
        match found {
            Some(caller) => Cache {
                callers: with_caller_added(callers, key, *caller),
                records,
            },
            None => Cache { callers, records },
        }
    }

    /// The cache with the public record that was read under that name. One of a name that no meeting
    /// has is not added, and none is where memory is refused for it.
    pub(crate) fn with_record(self, meeting: MeetingId, public: OwnedRecord) -> Cache
        ensures { (office : OfficeLists) → IsCacheOf office self
            → public ≡ public_of office meeting → IsCacheOf office result }
    {
        let Cache { callers, records } = self;
        if !public.has_meeting() {
            return Cache { callers, records };
        }
        Cache {
            callers,
            records: with_record_added(records, CachedRecord { meeting, public }),
        }
    }

    /// What of it is valid after a change.
    pub(crate) fn after(self, alloc: Global, valid: StillValid) -> Cache
        ensures { (office : OfficeLists) (change : Option Change) → IsCacheOf office self
            → valid ≡ valid_after change → IsCacheOf (applied_if_any office change) result }
    {
        let Cache { callers, records } = self;
        Cache {
            callers: callers_if(alloc, callers, valid.callers),
            records: records_if(alloc, records, valid.records),
        }
    }
}
