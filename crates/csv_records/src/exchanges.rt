//! Another separator in the place of the comma.
ghost use Rattle.std.specs.Prelude.{◌≡◌};
ghost use Rattle.csv_records.specs.Exchange.{exchanged};

/// Returns the comma for the separator, the separator for the comma, and any other byte as it is.
pub fn exchange(separator: u8, byte: u8) -> u8
    ensures { result ≡ exchanged separator byte }
{
    if byte == separator {
        b','
    } else if byte == b',' {
        separator
    } else {
        byte
    }
}
