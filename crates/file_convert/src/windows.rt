//! The whole records at the front of a text.
ghost use Rattle.std.specs.Prelude.{◌≡◌, ◌≤◌, length, map, true};
ghost use Rattle.csv_records.specs.Exchange.{exchanged};
ghost use Rattle.file_convert.specs.Pieces.{EndsInBreak};

use csv_records::exchange;

/// Returns how many bytes there are up to the last LF that follows an even number of double quotes; zero if there is none.
pub fn whole_len(text: &[u8]) -> usize
    ensures { result ≤ length text.now }
{
    let mut is_inside = false;
    let mut len = 0;
    for (place, byte) in text.iter().enumerate() {
        if *byte == b'"' {
            is_inside = !is_inside;
        } else if *byte == b'\n' && !is_inside {
            len = place + 1;
        }
    }
    len
}

/// Returns true if a text ends in an LF when the comma and the separator are exchanged.
pub(crate) fn ends_in_feed(separator: u8, text: &[u8]) -> bool
    ensures { result ≡ true → EndsInBreak (map (exchanged separator) text.now) }
{
    match text.last() {
        Some(byte) => exchange(separator, *byte) == b'\n',
        None => false,
    }
}
