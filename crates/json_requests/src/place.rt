//! What stands at a place: at a name that is asked for, or at an index in an array.
ghost use Rattle.std.specs.Prelude.{◌≡◌, IfErr};
ghost use Rattle.json_requests.specs.declared.ask.BodyError.TheVariants.{Unreadable};
ghost use Rattle.vocabulary.specs.OptionSteps.{guard};
ghost use Rattle.json_requests.specs.BodyValues.{view, items_view};
ghost use Rattle.calendar.specs.DateTexts.{day_of, moment_of};
ghost use Rattle.vocabulary.specs.Kinds.{company_of, meeting_kind_of, resolution_kind_of, holder_kind_of, way_of, capacity_of, instruction_of};
ghost use Rattle.vocabulary.specs.Names.{key_of, party_of};
ghost use Rattle.desk_words.specs.Callers.{caller_of};
ghost use Rattle.vocabulary.specs.Identity.{id};
ghost use Rattle.json_requests.specs.ParsedBodies.{BodyAgrees};
ghost use Rattle.json_requests.specs.JsonFields.{json_at, has_items, string_in, number_at, flag_at, items_in, parsed_at};
ghost use Rattle.vocabulary.specs.PlainTexts.{text_of};

use crate::ask::BodyError;
use crate::value::{as_array, as_bool, as_str, as_u64, has_items};
use desk_words::{
    Caller, Capacity, Company, Day, HolderKind, Instr, MeetingKind, Moment, Party, ResKind,
    SecretKey, Text, TextFault, Way, read_caller, read_day, read_key, read_moment, read_party,
};
use json::Value;
use std::alloc::Global;

/// Refuses what is no array of so many items.
pub(crate) fn exactly_items(value: &Value<'_>, count: usize) -> Result<(), BodyError>
    ensures agrees { BodyAgrees id result (guard (has_items count (view value.now))) }
    ensures sure { IfErr result (λ why. why ≡ Unreadable) }
{
    if has_items(value, count) {
        Ok(())
    } else {
        Err(BodyError::Unreadable)
    }
}

/// The string at a place.
pub(crate) fn string_in<'a>(place: Option<&Value<'a>>) -> Result<&'a str, BodyError>
    ensures agrees { BodyAgrees (λ s. s.now) result (string_in (json_at place.entry)) }
    ensures sure { IfErr result (λ why. why ≡ Unreadable) }
{
    place.and_then(as_str).ok_or(BodyError::Unreadable)
}

/// The number at a place: whole, with no sign, fraction or exponent, and below 2^64.
pub(crate) fn number_in(place: Option<&Value<'_>>) -> Result<u64, BodyError>
    ensures agrees { BodyAgrees id result (number_at (json_at place.entry)) }
    ensures sure { IfErr result (λ why. why ≡ Unreadable) }
{
    place.and_then(as_u64).ok_or(BodyError::Unreadable)
}

/// Whether `true` or `false` stands at a place.
pub(crate) fn flag_in(place: Option<&Value<'_>>) -> Result<bool, BodyError>
    ensures agrees { BodyAgrees id result (flag_at (json_at place.entry)) }
    ensures sure { IfErr result (λ why. why ≡ Unreadable) }
{
    place.and_then(as_bool).ok_or(BodyError::Unreadable)
}

/// The items of the array at a place.
pub(crate) fn items_in<'v, 'a>(place: Option<&'v Value<'a>>) -> Result<&'v [Value<'a>], BodyError>
    ensures agrees { BodyAgrees (λ vs. items_view vs.now) result (items_in (json_at place.entry)) }
    ensures sure { IfErr result (λ why. why ≡ Unreadable) }
{
    match place.and_then(as_array) {
        Some(items) => Ok(items),
        None => Err(BodyError::Unreadable),
    }
}

#[tactic(auto, unfolding(crate::specs::JsonFields::parsed_at))]
pub(crate) fn company_in(place: Option<&Value<'_>>) -> Result<Company, BodyError>
    ensures agrees { BodyAgrees id result (parsed_at company_of (json_at place.entry)) }
    ensures sure { IfErr result (λ why. why ≡ Unreadable) }
{
    Company::of_word(string_in(place)?).ok_or(BodyError::Unreadable)
}

#[tactic(auto, unfolding(crate::specs::JsonFields::parsed_at))]
pub(crate) fn meeting_kind_in(place: Option<&Value<'_>>) -> Result<MeetingKind, BodyError>
    ensures agrees { BodyAgrees id result (parsed_at meeting_kind_of (json_at place.entry)) }
    ensures sure { IfErr result (λ why. why ≡ Unreadable) }
{
    MeetingKind::of_word(string_in(place)?).ok_or(BodyError::Unreadable)
}

#[tactic(auto, unfolding(crate::specs::JsonFields::parsed_at))]
pub(crate) fn resolution_kind_in(place: Option<&Value<'_>>) -> Result<ResKind, BodyError>
    ensures agrees { BodyAgrees id result (parsed_at resolution_kind_of (json_at place.entry)) }
    ensures sure { IfErr result (λ why. why ≡ Unreadable) }
{
    ResKind::of_word(string_in(place)?).ok_or(BodyError::Unreadable)
}

#[tactic(auto, unfolding(crate::specs::JsonFields::parsed_at))]
pub(crate) fn holder_kind_in(place: Option<&Value<'_>>) -> Result<HolderKind, BodyError>
    ensures agrees { BodyAgrees id result (parsed_at holder_kind_of (json_at place.entry)) }
    ensures sure { IfErr result (λ why. why ≡ Unreadable) }
{
    HolderKind::of_word(string_in(place)?).ok_or(BodyError::Unreadable)
}

#[tactic(auto, unfolding(crate::specs::JsonFields::parsed_at))]
pub(crate) fn way_in(place: Option<&Value<'_>>) -> Result<Way, BodyError>
    ensures agrees { BodyAgrees id result (parsed_at way_of (json_at place.entry)) }
    ensures sure { IfErr result (λ why. why ≡ Unreadable) }
{
    Way::of_word(string_in(place)?).ok_or(BodyError::Unreadable)
}

#[tactic(auto, unfolding(crate::specs::JsonFields::parsed_at))]
pub(crate) fn capacity_in(place: Option<&Value<'_>>) -> Result<Capacity, BodyError>
    ensures agrees { BodyAgrees id result (parsed_at capacity_of (json_at place.entry)) }
    ensures sure { IfErr result (λ why. why ≡ Unreadable) }
{
    Capacity::of_word(string_in(place)?).ok_or(BodyError::Unreadable)
}

#[tactic(auto, unfolding(crate::specs::JsonFields::parsed_at))]
pub(crate) fn instruction_in(place: Option<&Value<'_>>) -> Result<Instr, BodyError>
    ensures agrees { BodyAgrees id result (parsed_at instruction_of (json_at place.entry)) }
    ensures sure { IfErr result (λ why. why ≡ Unreadable) }
{
    Instr::of_word(string_in(place)?).ok_or(BodyError::Unreadable)
}

#[tactic(auto, unfolding(crate::specs::JsonFields::parsed_at))]
pub(crate) fn day_in(place: Option<&Value<'_>>) -> Result<Day, BodyError>
    ensures agrees { BodyAgrees id result (parsed_at day_of (json_at place.entry)) }
    ensures sure { IfErr result (λ why. why ≡ Unreadable) }
{
    read_day(string_in(place)?.as_bytes()).ok_or(BodyError::Unreadable)
}

#[tactic(auto, unfolding(crate::specs::JsonFields::parsed_at))]
pub(crate) fn moment_in(place: Option<&Value<'_>>) -> Result<Moment, BodyError>
    ensures agrees { BodyAgrees id result (parsed_at moment_of (json_at place.entry)) }
    ensures sure { IfErr result (λ why. why ≡ Unreadable) }
{
    read_moment(string_in(place)?.as_bytes()).ok_or(BodyError::Unreadable)
}

#[tactic(auto, unfolding(crate::specs::JsonFields::parsed_at))]
pub(crate) fn party_in(place: Option<&Value<'_>>) -> Result<Party, BodyError>
    ensures agrees { BodyAgrees id result (parsed_at party_of (json_at place.entry)) }
    ensures sure { IfErr result (λ why. why ≡ Unreadable) }
{
    read_party(string_in(place)?.as_bytes()).ok_or(BodyError::Unreadable)
}

#[tactic(auto, unfolding(crate::specs::JsonFields::parsed_at))]
pub(crate) fn caller_in(place: Option<&Value<'_>>) -> Result<Caller, BodyError>
    ensures agrees { BodyAgrees id result (parsed_at caller_of (json_at place.entry)) }
    ensures sure { IfErr result (λ why. why ≡ Unreadable) }
{
    read_caller(string_in(place)?.as_bytes()).ok_or(BodyError::Unreadable)
}

#[tactic(auto, unfolding(crate::specs::JsonFields::parsed_at))]
pub(crate) fn key_in(place: Option<&Value<'_>>) -> Result<SecretKey, BodyError>
    ensures agrees { BodyAgrees id result (parsed_at key_of (json_at place.entry)) }
    ensures sure { IfErr result (λ why. why ≡ Unreadable) }
{
    read_key(string_in(place)?.as_bytes()).ok_or(BodyError::Unreadable)
}

fn text_of(alloc: Global, string: &str) -> Result<Text, BodyError>
    ensures { BodyAgrees id result (text_of string.now) }
{
    match Text::new(alloc, string.as_bytes()) {
        Ok(text) => Ok(text),
        Err(TextFault::Form) => Err(BodyError::Unreadable),
        Err(TextFault::Memory) => Err(BodyError::Memory),
    }
}

#[tactic(auto, unfolding(crate::specs::JsonFields::parsed_at))]
pub(crate) fn text_in(alloc: Global, place: Option<&Value<'_>>) -> Result<Text, BodyError>
    ensures { BodyAgrees id result (parsed_at text_of (json_at place.entry)) }
{
    text_of(alloc, string_in(place)?)
}
