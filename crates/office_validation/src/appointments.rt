//! Whether appointments and endings are those of a meeting.
ghost use Rattle.std.specs.Prelude.{◌≡◌, ◌==◌, [], Some, count_by, suc, take, true};
ghost use Rattle.std.specs.List.{list_all, list_any, slice_get};
ghost use Rattle.seq.specs.Ordered.{differ_by};
ghost use Rattle.vocabulary.specs.Names.{same_name};
ghost use Rattle.desk_words.specs.Office.{are_appointments, are_numbered_after, is_appointment};
ghost use Rattle.desk_words.specs.Office.{are_endings, is_ending_of, same_ending};
ghost use Rattle.desk_words.specs.declared.records.Appointment.{Appointment};

use crate::keys::{Marked, stand_once};
use desk_words::limits::MOST_APPOINTMENTS;
use desk_words::{Appointment, Ending, Filed};

/// Whether the appointment at a place has the number after those of its member's earlier ones.
fn is_numbered(given: &Filed<Appointment>, place: usize, appointment: &Appointment) -> bool
    requires { slice_get given.now place ≡ Some appointment.now }
    ensures { result ≡ (appointment.now.number
        == suc (count_by (λ (b : Appointment). same_name b.member appointment.now.member)
        (take place given.now))) }
{
    let own = given.places_by_first(appointment.member);
    1 <= appointment.number
        && appointment.number <= own.len() as u64
        && own[(appointment.number - 1) as usize] == place
}

/// Whether the appointments of each member are numbered 1, 2, .. in order of receipt.
fn are_numbered(given: &Filed<Appointment>) -> bool
    ensures { result ≡ are_numbered_after [] given.now }
{
    for (place, appointment) in given.as_slice().iter().enumerate() {
        if !is_numbered(given, place, appointment) {
            return false;
        }
    }
    true
}

fn is_appointment(resolutions: usize, appointment: &Appointment) -> bool
    ensures { result ≡ is_appointment resolutions appointment.now }
{
    appointment.number <= MOST_APPOINTMENTS as u64 && appointment.instructions.len() == resolutions
}

fn are_each_right(resolutions: usize, given: &[Appointment]) -> bool
    ensures { result ≡ list_all (is_appointment resolutions) given.now }
{
    given
        .iter()
        .all(|appointment| is_appointment(resolutions, appointment))
}

/// Whether they are the appointments of a meeting with so many resolutions (sections 324 and
/// 324A).
pub(crate) fn are_appointments(resolutions: usize, given: &Filed<Appointment>) -> bool
    ensures { result ≡ are_appointments resolutions given.now }
{
    are_numbered(given) && are_each_right(resolutions, given.as_slice())
}

/// Whether an ending names an appointment of its member.
fn names_appointment(given: &Filed<Appointment>, ending: &Ending) -> bool
    requires { are_numbered_after [] given.now ≡ true }
    ensures { result ≡ list_any (is_ending_of ending.now) given.now }
{
    let own = given.places_by_first(ending.member);
    1 <= ending.number && ending.number <= own.len() as u64
}

fn name_appointments(given: &Filed<Appointment>, ended: &[Ending]) -> bool
    requires { are_numbered_after [] given.now ≡ true }
    ensures { result ≡ list_all (λ e. list_any (is_ending_of e) given.now) ended.now }
{
    ended.iter().all(|ending| names_appointment(given, ending))
}

impl Marked for Ending {
    type Mark = u64;

    ghost mark_of = { λ ending. ending.number };

    fn mark(&self) -> u64 {
        self.number
    }
}

/// Whether no appointment is ended twice.
fn endings_differ(ended: &Filed<Ending>) -> bool
    ensures { result ≡ differ_by same_ending ended.now }
{
    stand_once(ended)
}

/// Whether they are endings of these appointments (section 330).
pub(crate) fn are_endings(given: &Filed<Appointment>, ended: &Filed<Ending>) -> bool
    requires { are_numbered_after [] given.now ≡ true }
    ensures { result ≡ are_endings given.now ended.now }
{
    name_appointments(given, ended.as_slice()) && endings_differ(ended)
}
