//! The commands that load a file.
ghost use Rattle.std.specs.Prelude.{◌≡◌, ◌≢◌, ◌⊎◌, ◌≤◌, ◌+◌};
ghost use Rattle.any_office.specs.Storing.{HoldsOfStored, IsStored, IsStoredOrNext};
ghost use Rattle.any_office.specs.StoredOffice.{HasFailed, HoldsOfOffice};
ghost use Rattle.cli_exit.specs.Endings.{ended_view};
ghost use Rattle.csv_import.specs.DayFiles.{day_file};
ghost use Rattle.csv_import.specs.KeyFiles.{key_file};
ghost use Rattle.csv_import.specs.RegisterFiles.{register_file};
ghost use Rattle.csv_import.specs.declared.whole.TheConstants.{DAY_FILE_LIMIT, FILE_LIMIT};
ghost use Rattle.cli_commands.specs.LoadCommands.{AnswersFile, Loads};
ghost use Rattle.cli_commands.specs.FileReading.{load_asked, reader_at, with_days, with_keys, with_register};

use crate::asking::ask;
use any_office::Office;
use byte_io::Source;
use cli_exit::Ended;
use csv_import::{FileError, read_days, read_keys, read_register};
use desk_words::{
    DayList, DeskRequest, KeyRows, MeetingId, Moment, NewRegister, OfficeRequest, Register, Request,
};
use std::alloc::Global;

/// What a key file asks.
fn keys_asked(file: Result<KeyRows, FileError>) -> Result<Request, FileError>
    ensures { result ≡ load_asked with_keys file }
{
    match file {
        Ok(rows) => Ok(Request::Desk(DeskRequest::Keys(rows))),
        Err(fault) => Err(fault),
    }
}

/// What a file of closed days asks.
fn days_asked(file: Result<DayList, FileError>) -> Result<Request, FileError>
    ensures { result ≡ load_asked with_days file }
{
    match file {
        Ok(days) => Ok(Request::Desk(DeskRequest::ClosedDays(days))),
        Err(fault) => Err(fault),
    }
}

/// What a register file asks for a meeting.
fn register_asked(
    meeting: MeetingId,
    record_moment: Moment,
    file: Result<Register, FileError>,
) -> Result<Request, FileError>
    ensures { result ≡ load_asked (with_register meeting record_moment) file }
{
    match file {
        Ok(rows) => Ok(Request::Office {
            meeting,
            asked: OfficeRequest::LoadRegister(NewRegister {
                record_moment,
                rows,
            }),
        }),
        Err(fault) => Err(fault),
    }
}

/// Asks the office for what a file spells, or tells the file's fault.
fn load<O: Office>(office: &mut O, now: Moment, file: Result<Request, FileError>) -> Ended
    ensures follows { HoldsOfOffice O.is_reliable O.stands office.old office.new
        (λ held. AnswersFile held now file (ended_view result)
        (O.stands office.new) (λ _. O.is_open office.new → O.stands office.new held)) }
    ensures stores { HoldsOfStored O.Office office.old office.new
        (λ held. AnswersFile held now file (ended_view result)
        (IsStored O.Office office.new) (IsStoredOrNext O.Office office.new held)) }
    ensures same { HoldsOfOffice O.is_reliable O.stands office.old office.new
        (λ held. O.is_open office.new → result.status ≢ 0 → O.stands office.new held) }
    ensures trust { O.is_reliable office.new → O.is_reliable office.old }
    ensures closes { O.is_reliable office.new → O.is_open office.old
        → O.is_open office.new ⊎ HasFailed (O.faults office.old) (O.faults office.new) }
{
    match file {
        Ok(request) => ask(office, now, request),
        Err(fault) => Ended::by_file(fault),
    }
}

/// Loads the keys that a key file spells: reads the file whole, makes the one request of the
/// office, and ends with status 0 and `loaded` or `same`.
///
/// A fault of the file ends with 3 and its line and cause, and nothing is asked. `ReadFault` says
/// that a read failed or that more bytes came than the file may have. `Memory` ends with 3 too, and
/// so does `Store`, only where the office was asked. With any other status than 0 an office that is
/// open is stored as it was. Whatever a crash leaves is the office after the request; or, after
/// `Store` or `Memory`, that office or the one before. One that is open stays so, or a device under it failed in this call.
pub fn keys<O: Office, R: Source>(
    alloc: Global,
    office: &mut O,
    now: Moment,
    reader: &mut R,
) -> Ended
    ensures loads { HoldsOfOffice O.is_reliable O.stands office.old office.new
        (λ held. Loads key_file with_keys FILE_LIMIT
        (reader_at (R.remaining reader.old) (R.passed reader.old) (R.failures reader.old))
        (reader_at (R.remaining reader.new) (R.passed reader.new) (R.failures reader.new))
        held now (ended_view result)
        (O.stands office.new) (λ _. O.is_open office.new → O.stands office.new held)) }
    ensures stores { HoldsOfStored O.Office office.old office.new
        (λ held. Loads key_file with_keys FILE_LIMIT
        (reader_at (R.remaining reader.old) (R.passed reader.old) (R.failures reader.old))
        (reader_at (R.remaining reader.new) (R.passed reader.new) (R.failures reader.new))
        held now (ended_view result)
        (IsStored O.Office office.new) (IsStoredOrNext O.Office office.new held)) }
    ensures same { HoldsOfOffice O.is_reliable O.stands office.old office.new
        (λ held. O.is_open office.new → result.status ≢ 0 → O.stands office.new held) }
    ensures trust { O.is_reliable office.new → O.is_reliable office.old }
    ensures closes { O.is_reliable office.new → O.is_open office.old
        → O.is_open office.new ⊎ HasFailed (O.faults office.old) (O.faults office.new) }
    ensures bound { R.passed reader.new ≤ R.passed reader.old + FILE_LIMIT + 1 }
{
    let file = read_keys(alloc, reader);
    load(office, now, keys_asked(file))
}

/// Loads the closed days that a file spells (section 1173), as `keys` does keys.
pub fn days<O: Office, R: Source>(
    alloc: Global,
    office: &mut O,
    now: Moment,
    reader: &mut R,
) -> Ended
    ensures loads { HoldsOfOffice O.is_reliable O.stands office.old office.new
        (λ held. Loads day_file with_days DAY_FILE_LIMIT
        (reader_at (R.remaining reader.old) (R.passed reader.old) (R.failures reader.old))
        (reader_at (R.remaining reader.new) (R.passed reader.new) (R.failures reader.new))
        held now (ended_view result)
        (O.stands office.new) (λ _. O.is_open office.new → O.stands office.new held)) }
    ensures stores { HoldsOfStored O.Office office.old office.new
        (λ held. Loads day_file with_days DAY_FILE_LIMIT
        (reader_at (R.remaining reader.old) (R.passed reader.old) (R.failures reader.old))
        (reader_at (R.remaining reader.new) (R.passed reader.new) (R.failures reader.new))
        held now (ended_view result)
        (IsStored O.Office office.new) (IsStoredOrNext O.Office office.new held)) }
    ensures same { HoldsOfOffice O.is_reliable O.stands office.old office.new
        (λ held. O.is_open office.new → result.status ≢ 0 → O.stands office.new held) }
    ensures trust { O.is_reliable office.new → O.is_reliable office.old }
    ensures closes { O.is_reliable office.new → O.is_open office.old
        → O.is_open office.new ⊎ HasFailed (O.faults office.old) (O.faults office.new) }
    ensures bound { R.passed reader.new ≤ R.passed reader.old + DAY_FILE_LIMIT + 1 }
{
    let file = read_days(alloc, reader);
    load(office, now, days_asked(file))
}

/// Loads the register of a meeting, as it was at the record moment, that a register file spells, as
/// `keys` does keys. A register that the desk refuses, as of a meeting that there is not, ends with
/// status 1 and the refusal.
pub fn register<O: Office, R: Source>(
    alloc: Global,
    office: &mut O,
    now: Moment,
    meeting: MeetingId,
    record_moment: Moment,
    reader: &mut R,
) -> Ended
    ensures loads { HoldsOfOffice O.is_reliable O.stands office.old office.new
        (λ held. Loads register_file (with_register meeting record_moment) FILE_LIMIT
        (reader_at (R.remaining reader.old) (R.passed reader.old) (R.failures reader.old))
        (reader_at (R.remaining reader.new) (R.passed reader.new) (R.failures reader.new))
        held now (ended_view result)
        (O.stands office.new) (λ _. O.is_open office.new → O.stands office.new held)) }
    ensures stores { HoldsOfStored O.Office office.old office.new
        (λ held. Loads register_file (with_register meeting record_moment) FILE_LIMIT
        (reader_at (R.remaining reader.old) (R.passed reader.old) (R.failures reader.old))
        (reader_at (R.remaining reader.new) (R.passed reader.new) (R.failures reader.new))
        held now (ended_view result)
        (IsStored O.Office office.new) (IsStoredOrNext O.Office office.new held)) }
    ensures same { HoldsOfOffice O.is_reliable O.stands office.old office.new
        (λ held. O.is_open office.new → result.status ≢ 0 → O.stands office.new held) }
    ensures trust { O.is_reliable office.new → O.is_reliable office.old }
    ensures closes { O.is_reliable office.new → O.is_open office.old
        → O.is_open office.new ⊎ HasFailed (O.faults office.old) (O.faults office.new) }
    ensures bound { R.passed reader.new ≤ R.passed reader.old + FILE_LIMIT + 1 }
{
    let file = read_register(alloc, reader);
    load(office, now, register_asked(meeting, record_moment, file))
}
