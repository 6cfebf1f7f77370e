//! Numbers in the fields of records.
ghost use Rattle.std.specs.Prelude.{◌≡◌, ◌≤◌, IfSome};
ghost use Rattle.csv_import.specs.Decimals.{decimal_of, bounded};

/// The number that 1 to 19 digits write, or none where the bytes are anything else.
pub(crate) fn read_number(bytes: &[u8]) -> Option<u64>
    ensures { result ≡ decimal_of bytes.now }
{
    if bytes.is_empty() || bytes.len() > 19 {
        return None;
    }
    let mut number = 0;
    for byte in bytes {
        if !byte.is_ascii_digit() {
            return None;
        }
        number = number * 10 + (*byte - b'0') as u64;
    }
    Some(number)
}

/// The number, if it is one of those from `low` to `high`.
pub(crate) fn within(low: u64, high: u64, number: Option<u64>) -> Option<u64>
    ensures value { result ≡ bounded low high number }
    ensures bounds { IfSome result (λ found. (low ≤ found) × (found ≤ high)) }
{
    number.filter(|number| low <= *number && *number <= high)
}
