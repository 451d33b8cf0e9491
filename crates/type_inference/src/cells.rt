//! What the text of one cell is.

/// Returns true if there is a digit, and nothing else.
pub fn are_digits(text: &str) -> bool {
    for byte in text.as_bytes() {
        if !byte.is_ascii_digit() {
            return false;
        }
    }
    !text.is_empty()
}

/// Returns true for two digits or more, of which the first is 0.
pub fn is_padded(cell: &str) -> bool {
    cell.len() > 1 && cell.starts_with('0') && are_digits(cell)
}

/// Returns true for two bytes or more, of which the last is 0.
pub fn last_is_zero(places: &str) -> bool {
    places.len() > 1 && places.ends_with('0')
}

/// Returns the text without the white space at its ends, which is none of a value (Model for Tabular Data and Metadata on the Web, section 6.4).
pub fn without_white(cell: &str) -> &str {
    let bytes = cell.as_bytes();
    match (bytes.first(), bytes.last()) {
        (Some(first), Some(last)) if *first > b' ' && *last > b' ' => cell,
        _ => cell.trim_matches(&[' ', '\t', '\n', '\r']),
    }
}
