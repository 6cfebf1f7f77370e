//! A desk with a cache: callers and public records are read once, until they change.
ghost use Rattle.std.specs.Prelude.{◌≡◌, false, IfOk, IfSome, IsTrue, None, Ok, OnOk};
ghost use Rattle.std.specs.Fn.{FnOnceReturnsAt};
ghost use Rattle.desk_store.specs.Joins.{IsAsItWas, LeavesDesk};
ghost use Rattle.desk_cache.specs.Cache.{IsCacheOf, IsValid, StandsIfMade, asked_in};
ghost use Rattle.desk_cache.specs.Caching.{Finds, LeavesNext, Performs, only_reply};
ghost use Rattle.desk_store.specs.TableReads.{HoldsOfDesk, IsCallerWith, IsPublic};
ghost use Rattle.desk_words.specs.Office.{is_office};
ghost use Rattle.desk_words.specs.declared.office.OfficeLists.{OfficeLists};
ghost use Rattle.desk_words.specs.declared.request.PartyRequest.TheVariants.{Notice};
ghost use Rattle.meeting_core.specs.Decisions.{party_call};
ghost use Rattle.meeting_core.specs.Step.{decided};
ghost use Rattle.sqlite.specs.Held.{state};

use crate::cache::Cache;
use crate::declared::is_as_made;
use desk_deciding::{answer_notice, cached_record};
use desk_store::{Desk, OwnedRecord};
use desk_words::{
    Answer, Call, Caller, Failure, MeetingId, Moment, Party, PartyRequest, Reply, Request,
    SecretKey,
};
use sqlite::{Alter, Connection};
use std::alloc::{AllocError, Global};
use std::marker::Model;

/// The desk of one company over a database that nothing else writes, with a cache of callers by their
/// keys and of public records of meetings. It has one only where its tables are known to stand for an
/// office. Contracts see it as its connection.
pub struct CachingDesk<S: Alter> {
    desk: Desk<S>,
    alloc: Global,
    /// Whether the tables are known to stand for an office.
    is_known: bool,
    /// The cache, where they are, and what was asked last was answered.
    cache: Option<Cache>,
}

impl<S: Alter + Drop> Drop for CachingDesk<S> {
    fn drop(self) {
        let CachingDesk {
            desk: _,
            alloc: _,
            is_known: _,
            cache: _,
        } = self;
    }
}

impl<S: Alter> Model for CachingDesk<S> {
    ghost use Rattle.std.specs.Prelude.{IsTrue};
    ghost use Rattle.sqlite.specs.Held.{Held, held_code};
    ghost use Rattle.desk_cache.specs.Cache.{IsValidIfAny, StandsIfOpen};

    ghost Value = { Held S };

    ghost coded = { held_code S.code };

    ghost view = { λ d. d.desk };

    ghost invariant = { λ d. (IsTrue d.is_known → StandsIfOpen S.Store d.desk)
        × IsValidIfAny S.Store d.desk d.cache };
}

/// An empty cache, where tables are known to stand for an office.
fn new_cache_if(alloc: Global, is_known: bool) -> Option<Cache>
    ensures { IfSome result (λ cache. IsTrue is_known × ((office : OfficeLists) → IsCacheOf office cache)) }
{
    if is_known {
        Some(Cache::new(alloc))
    } else {
        None
    }
}

/// The meeting in which a party asks something.
fn asked_in(call: &Call) -> Option<MeetingId>
    ensures { result ≡ asked_in call.now.caller call.now.request }
{
    match (call.caller, &call.request) {
        (Caller::Party(_), Request::Party { meeting, asked: _ }) => Some(*meeting),
        _ => None,
    }
}

/// The party that asks for a notice, and the meeting.
fn noticed_in(call: &Call) -> Option<(Party, MeetingId)>
    ensures { IfSome result (λ it. call.now ≡ party_call it.0 it.1 call.now.moment Notice) }
{
    match call.caller {
        Caller::Office => None,
        Caller::Party(party) => match &call.request {
            Request::Party {
                meeting,
                asked: PartyRequest::Notice,
            } => Some((party, *meeting)),
            _ => None,
        },
    }
}

/// The reply to a notice, where the public record of its meeting is in the cache. The error is want of
/// memory.
fn cached_notice(
    alloc: Global,
    cache: &Cache,
    now: Moment,
    party: Party,
    meeting: MeetingId,
) -> Result<Option<Reply>, AllocError>
    ensures { IfOk result (λ found. IfSome found (λ reply. (office : OfficeLists)
        → IsCacheOf office cache.now → IsTrue (is_office office)
        → decided office (party_call party meeting now Notice) ≡ only_reply reply)) }
{
    let Some(public) = cached_record(cache.records(), meeting) else {
        return Ok(None);
    };
    let answer = answer_notice(alloc, now, party, meeting, public)?;
    let Answer { reply, change } = answer;
    match change {
        None => Ok(Some(reply)),
        Some(_) => Ok(None),
    }
}

impl<S: Alter> CachingDesk<S> {
    /// The desk over the tables that a connection shows, as `sql_open` opened them. They are not read
    /// once more. They are known to stand for an office where they and their indexes are declared as
    /// those of a new desk, and no others are.
    pub fn of_opened(alloc: Global, conn: Connection<S>) -> CachingDesk<S>
        requires none { conn.in_transaction ≡ false }
        requires opened { StandsIfMade S.Store conn }
        ensures { result ≡ conn }
    {
        let is_known = is_as_made(alloc, &conn);
        CachingDesk {
            desk: Desk::of_opened(alloc, conn),
            alloc,
            is_known,
            cache: None,
        }
    }

    /// Hands the connection back. It takes no memory.
    pub fn close(self) -> Connection<S>
        ensures same { result ≡ self }
        ensures ended { result.in_transaction ≡ false }
    {
        let CachingDesk {
            desk,
            alloc: _,
            is_known: _,
            cache: _,
        } = self;
        desk.close()
    }

    /// The public record of a meeting; where there is none of that name, the closed days alone.
    pub fn read_public(&mut self, meeting: MeetingId) -> Result<OwnedRecord, Failure>
        ensures { Finds S.Store self.old self.new result (IsPublic meeting) }
    {
        self.cache = None;
        self.desk.read_public(meeting)
    }

    /// The caller whose key this is, read from the tables.
    fn caller_uncached(&mut self, key: &SecretKey) -> Result<Option<Caller>, Failure>
        ensures { Finds S.Store self.old self.new result (IsCallerWith key.now) }
    {
        self.cache = None;
        let found = self.desk.caller_of(key)?;
        self.cache = new_cache_if(self.alloc, self.is_known);
        Ok(found)
    }

    /// The caller whose key this is, read from the tables and added to the cache.
    fn caller_read_beside(
        &mut self,
        cache: Cache,
        key: &SecretKey,
    ) -> Result<Option<Caller>, Failure>
        requires cache { IsValid S.Store self.old cache }
        ensures { Finds S.Store self.old self.new result (IsCallerWith key.now) }
    {
        self.cache = None;
        let found = self.desk.caller_of(key)?;
        self.cache = Some(cache.with_caller(*key, &found));
        Ok(found)
    }

    /// The caller whose key this is, from the cache or from the tables.
    fn caller_cached_or_read(
        &mut self,
        cache: Cache,
        key: &SecretKey,
    ) -> Result<Option<Caller>, Failure>
        requires cache { IsValid S.Store self.old cache }
        ensures { Finds S.Store self.old self.new result (IsCallerWith key.now) }
    {
        match cache.caller(key) {
            Some(caller) => {
                self.cache = Some(cache);
                Ok(Some(caller))
            }
            None => self.caller_read_beside(cache, key),
        }
    }

    /// The caller whose key this is; none exactly where no key equals it.
    pub fn caller_of(&mut self, key: &SecretKey) -> Result<Option<Caller>, Failure>
        ensures { Finds S.Store self.old self.new result (IsCallerWith key.now) }
    {
        match self.cache.take() {
            Some(cache) => self.caller_cached_or_read(cache, key),
            None => self.caller_uncached(key),
        }
    }

    /// The cache with the public record of the meeting in which a party asks something.
    fn cache_record(&mut self, cache: Cache, call: &Call) -> Result<Cache, Failure>
        requires cache { IsValid S.Store self.old cache }
        ensures cache { IfOk result (λ cache. IsValid S.Store self.new cache) }
        ensures leaves { LeavesDesk S.Store None self.old self.new }
        ensures ended { self.new.in_transaction ≡ false }
        ensures still { HoldsOfDesk S.Store self.old self.new (λ _. OnOk result
            (IsAsItWas (state S.Store self.old) (state S.Store self.new))) }
        ensures crash { LeavesNext S.Store self.old self.new (λ _. ⊥) }
    {
        self.cache = None;
        let Some(meeting) = asked_in(call) else {
            return Ok(cache);
        };
        if cached_record(cache.records(), meeting).is_some() {
            return Ok(cache);
        }
        let public = self.desk.read_public(meeting)?;
        Ok(cache.with_record(meeting, public))
    }

    /// Makes a call in a transaction, from public records of the cache.
    fn perform_in_tables<T: Drop, F: FnOnce(&Reply) -> Result<T, AllocError>>(
        &mut self,
        cache: Cache,
        call: &Call,
        show: F,
    ) -> Result<T, Failure>
        requires callable { F.IsAlwaysCallable show }
        requires cache { IsValid S.Store self.old cache }
        ensures { Performs S.Store self.old self.new call.now result
            (λ reply t. FnOnceReturnsAt F.FnOnce show reply (Ok t)) }
    {
        self.cache = None;
        let (shown, valid) = self.desk.perform_with_records(call, cache.records(), show)?;
        self.cache = Some(cache.after(self.alloc, valid));
        Ok(shown)
    }

    /// Asks what is shown of a reply for which nothing was asked of the tables.
    fn show_reply<T: Drop, F: FnOnce(&Reply) -> Result<T, AllocError>>(
        &mut self,
        cache: Cache,
        reply: &Reply,
        show: F,
    ) -> Result<T, Failure>
        requires callable { F.IsAlwaysCallable show }
        requires cache { IsValid S.Store self.old cache }
        ensures same { self.new ≡ self.old }
        ensures shown { IfOk result (λ t. FnOnceReturnsAt F.FnOnce show reply.now (Ok t)) }
    {
        match show(reply) {
            Ok(shown) => {
                self.cache = Some(cache);
                Ok(shown)
            }
            Err(AllocError) => {
                self.cache = None;
                Err(Failure::Memory)
            }
        }
    }

    /// Makes a call: a notice without a statement, and any other in a transaction.
    fn perform_cached<T: Drop, F: FnOnce(&Reply) -> Result<T, AllocError>>(
        &mut self,
        cache: Cache,
        call: &Call,
        show: F,
    ) -> Result<T, Failure>
        requires callable { F.IsAlwaysCallable show }
        requires cache { IsValid S.Store self.old cache }
        ensures { Performs S.Store self.old self.new call.now result
            (λ reply t. FnOnceReturnsAt F.FnOnce show reply (Ok t)) }
    {
        let Some((party, meeting)) = noticed_in(call) else {
            return self.perform_in_tables(cache, call, show);
        };
        match cached_notice(self.alloc, &cache, call.moment, party, meeting) {
            Ok(Some(reply)) => self.show_reply(cache, &reply, show),
            Ok(None) => self.perform_in_tables(cache, call, show),
            Err(AllocError) => {
                self.cache = None;
                Err(Failure::Memory)
            }
        }
    }

    /// Makes a call, once the public record of the meeting in which a party asks something is cached.
    fn perform_with_cache<T: Drop, F: FnOnce(&Reply) -> Result<T, AllocError>>(
        &mut self,
        cache: Cache,
        call: &Call,
        show: F,
    ) -> Result<T, Failure>
        requires callable { F.IsAlwaysCallable show }
        requires cache { IsValid S.Store self.old cache }
        ensures { Performs S.Store self.old self.new call.now result
            (λ reply t. FnOnceReturnsAt F.FnOnce show reply (Ok t)) }
    {
        let cache = self.cache_record(cache, call)?;
        self.perform_cached(cache, call, show)
    }

    /// Makes a call in a transaction, from the tables alone.
    fn perform_uncached<T: Drop, F: FnOnce(&Reply) -> Result<T, AllocError>>(
        &mut self,
        call: Call,
        show: F,
    ) -> Result<T, Failure>
        requires callable { F.IsAlwaysCallable show }
        ensures { Performs S.Store self.old self.new call result
            (λ reply t. FnOnceReturnsAt F.FnOnce show reply (Ok t)) }
    {
        self.cache = None;
        let shown = self.desk.perform(call, show)?;
        self.cache = new_cache_if(self.alloc, self.is_known);
        Ok(shown)
    }

    /// Makes one call, as `Desk::perform` does. The public record of a meeting is read from the tables
    /// once, until a call changes it; a notice from the cache runs no statement. After a failure the
    /// cache is empty.
    pub fn perform<T: Drop, F: FnOnce(&Reply) -> Result<T, AllocError>>(
        &mut self,
        call: Call,
        show: F,
    ) -> Result<T, Failure>
        requires callable { F.IsAlwaysCallable show }
        ensures { Performs S.Store self.old self.new call result
            (λ reply t. FnOnceReturnsAt F.FnOnce show reply (Ok t)) }
    {
        match self.cache.take() {
            Some(cache) => self.perform_with_cache(cache, &call, show),
            None => self.perform_uncached(call, show),
        }
    }
}
