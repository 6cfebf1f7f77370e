//! The values by which names, words, days and moments are kept, so that they read back.
ghost use Rattle.std.specs.Prelude.{◌≡◌, ◌≤◌, ◌^◌, ◌↔◌, Some, IfSome, IsNone, IsSomeAnd};
ghost use Rattle.sqlite.specs.Values.{or_null};
ghost use Rattle.sqlite.specs.declared.types.Value.TheVariants.{Int, Text as Words};
ghost use Rattle.vocabulary.specs.Kinds.{company_of, meeting_kind_of, resolution_kind_of, holder_kind_of, capacity_of, way_of};
ghost use Rattle.vocabulary.specs.Names.{party_of, meeting_of, key_of};
ghost use Rattle.vocabulary.specs.Places.{range_of};
ghost use Rattle.desk_words.specs.Callers.{caller_of};
ghost use Rattle.sql_rows.specs.ColumnValues.{unix_day, moment_of_number, some_moment_of, natural_of, plain_text_of, read_word};
ghost use Rattle.sql_rows.specs.Marks.{HasTooHighFigure, declared_of, cast_kind_of};

use desk_words::{
    Caller, Capacity, CastKind, Company, Day, HolderKind, MeetingId, MeetingKind, Moment, Party,
    Range, ResKind, SecretKey, Tally, Text, Way,
};

/// The days since 1970-01-01.
#[tactic(auto, using(crate::proofs::RowColumnLemmas::day_reads_back))]
pub fn day_number(day: Day) -> i64
    ensures { unix_day result ≡ Some day }
{
    // What a day keeps is known once it is asked.
    let _ = day.number();
    day.unix_days()
}

/// The seconds since 1970-01-01T00:00:00.
#[tactic(auto, using(crate::proofs::RowColumnLemmas::moment_reads_back))]
pub fn moment_number(moment: Moment) -> i64
    ensures { moment_of_number result ≡ Some moment }
{
    // What a moment keeps is known once it is asked.
    let _ = moment.seconds();
    moment.unix_seconds()
}

/// The letters of a meeting's name.
#[tactic(auto, using(crate::proofs::RowColumnLemmas::meeting_reads_back))]
pub fn meeting_text(meeting: &MeetingId) -> &str
    ensures { meeting_of result.now ≡ Some meeting.now }
{
    meeting.as_str()
}

/// The letters of a party's name.
#[tactic(auto, using(crate::proofs::RowColumnLemmas::party_reads_back))]
pub fn party_text(party: &Party) -> &str
    ensures { party_of result.now ≡ Some party.now }
{
    party.as_str()
}

/// `OFFICE`, or the letters of a party's name.
pub fn caller_text(caller: &Caller) -> &str
    ensures { caller_of result.now ≡ Some caller.now }
{
    match caller {
        Caller::Office => "OFFICE",
        Caller::Party(party) => party_text(party),
    }
}

/// The letters of a key.
#[tactic(auto, using(crate::proofs::RowColumnLemmas::key_reads_back))]
pub fn key_text(key: &SecretKey) -> &str
    ensures { key_of result.now ≡ Some key.now }
{
    key.as_str()
}

/// The bytes of a text.
#[tactic(auto, using(crate::proofs::RowColumnLemmas::text_reads_back))]
pub fn text_value(text: &Text) -> &str
    ensures { read_word plain_text_of result.now ≡ Some text.now }
{
    text.as_str()
}

/// The word for a company.
#[tactic(auto, using(crate::proofs::RowColumnLemmas::company_reads_back))]
pub fn company_text(company: Company) -> &'static str
    ensures { read_word company_of result.now ≡ Some company }
{
    company.word()
}

/// The word for a kind of meeting.
#[tactic(auto, using(crate::proofs::RowColumnLemmas::meeting_kind_reads_back))]
pub fn meeting_kind_text(kind: MeetingKind) -> &'static str
    ensures { read_word meeting_kind_of result.now ≡ Some kind }
{
    kind.word()
}

/// The word for a kind of resolution.
#[tactic(auto, using(crate::proofs::RowColumnLemmas::resolution_kind_reads_back))]
pub fn resolution_kind_text(kind: ResKind) -> &'static str
    ensures { read_word resolution_kind_of result.now ≡ Some kind }
{
    kind.word()
}

/// The word for a kind of holder.
#[tactic(auto, using(crate::proofs::RowColumnLemmas::holder_kind_reads_back))]
pub fn holder_kind_text(kind: HolderKind) -> &'static str
    ensures { read_word holder_kind_of result.now ≡ Some kind }
{
    kind.word()
}

/// The word for a capacity.
#[tactic(auto, using(crate::proofs::RowColumnLemmas::capacity_reads_back))]
pub fn capacity_text(capacity: Capacity) -> &'static str
    ensures { read_word capacity_of result.now ≡ Some capacity }
{
    capacity.word()
}

/// The word for a way.
#[tactic(auto, using(crate::proofs::RowColumnLemmas::way_reads_back))]
pub fn way_text(way: Way) -> &'static str
    ensures { read_word way_of result.now ≡ Some way }
{
    way.word()
}

/// The seconds since 1970-01-01T00:00:00 of a moment, if there is one.
#[tactic(auto, using(crate::proofs::RowColumnLemmas::moment_reads_back))]
pub fn some_moment_number(moment: Option<Moment>) -> Option<i64>
    ensures { some_moment_of (or_null Int result) ≡ Some moment }
{
    match moment {
        Some(moment) => Some(moment_number(moment)),
        None => None,
    }
}

/// A number, or none exactly where it is above 2^63 - 1, the highest that is kept.
#[tactic(auto, using(crate::proofs::RowColumnLemmas::number_reads_back))]
pub fn whole_number(number: u64) -> Option<i64>
    ensures reads_back { IfSome result (λ n. natural_of n ≡ Some number) }
    ensures refused { IsNone result ↔ (2 ^ 63 ≤ number) }
{
    i64::try_from(number).ok()
}

/// The first and the last of the places of a range.
pub fn range_numbers(range: Range) -> (i64, i64)
    ensures first { natural_of result.0 ≡ Some range.from }
    ensures last { natural_of result.1 ≡ Some range.to }
    ensures form { range_of range.from range.to ≡ Some range }
{
    (range.from() as i64, range.to() as i64)
}

/// The values of the four columns of a count.
#[derive(Clone, Copy, PartialEq, Eq)]
pub struct TallyColumns {
    pub votes_for: Option<i64>,
    pub votes_against: Option<i64>,
    pub withheld: Option<i64>,
    pub eligible: Option<i64>,
}

/// The values of the columns of what is declared, or none exactly where a figure is above 2^63 - 1.
pub fn tally_columns(declared: Option<Tally>) -> Option<TallyColumns>
    ensures refused { IsNone result ↔ IsSomeAnd declared HasTooHighFigure }
    ensures reads_back { IfSome result
        (λ t. declared_of (or_null Int t.votes_for) (or_null Int t.votes_against)
        (or_null Int t.withheld) (or_null Int t.eligible)
        ≡ Some declared) }
{
    let Some(tally) = declared else {
        return Some(TallyColumns {
            votes_for: None,
            votes_against: None,
            withheld: None,
            eligible: None,
        });
    };
    let votes_for = whole_number(tally.votes_for)?;
    let votes_against = whole_number(tally.votes_against)?;
    let withheld = whole_number(tally.withheld)?;
    let eligible = whole_number(tally.eligible)?;
    Some(TallyColumns {
        votes_for: Some(votes_for),
        votes_against: Some(votes_against),
        withheld: Some(withheld),
        eligible: Some(eligible),
    })
}

/// The values of the five columns of what is cast.
#[derive(Clone, Copy)]
pub struct CastColumns<'a> {
    pub capacity: &'a str,
    pub member: Option<&'a str>,
    pub first: Option<i64>,
    pub last: Option<i64>,
    pub way: Option<&'a str>,
}

/// The values of the columns of what is cast.
pub fn cast_columns(what: &CastKind) -> CastColumns<'_>
    ensures { cast_kind_of (Words result.capacity.now) (or_null (λ s. Words s.now) result.member)
        (or_null Int result.first) (or_null Int result.last)
        (or_null (λ s. Words s.now) result.way)
        ≡ Some what.now }
{
    match what {
        CastKind::Block(block) => CastColumns {
            capacity: capacity_text(block.capacity),
            member: Some(party_text(&block.member)),
            first: Some(block.range.from() as i64),
            last: Some(block.range.to() as i64),
            way: Some(way_text(block.way)),
        },
        CastKind::AsInstructed => CastColumns {
            capacity: "instructed",
            member: None,
            first: None,
            last: None,
            way: None,
        },
    }
}
