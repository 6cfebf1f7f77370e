//! The fields of a record.
ghost use Rattle.std.specs.Prelude.{◌≡◌};
ghost use Rattle.csv.specs.Records.{fields_of};
ghost use Rattle.csv_import.specs.CsvTables.{column};

use csv::ByteRecord;

/// The field in a column, counted from 0; nothing where the record has no such field.
pub(crate) fn column(fields: &ByteRecord, place: usize) -> &[u8]
    ensures { result.now ≡ column place (fields_of fields.now) }
{
    match fields.get(place) {
        Some(field) => field,
        None => b"",
    }
}
