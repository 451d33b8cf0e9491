//! The steps of a form of days and times, in the text of a cell.

/// The first letters of the months.
const MONTHS: [&str; 12] = [
    "jan", "feb", "mar", "apr", "may", "jun", "jul", "aug", "sep", "oct", "nov", "dec",
];

/// Returns how many digits begin a text.
fn digit_count(text: &[u8]) -> usize {
    text.iter().take_while(|byte| byte.is_ascii_digit()).count()
}

/// Returns a text without its first bytes, if it has as many.
fn without(text: &[u8], count: usize) -> Option<&[u8]> {
    if count > text.len() {
        return None;
    }
    Some(&text[count..])
}

/// Returns what follows the name of a month, whole or cut to three letters or more.
fn without_month(text: &[u8]) -> Option<&[u8]> {
    let letters = text
        .iter()
        .take_while(|byte| byte.is_ascii_alphabetic())
        .count();
    if letters < 3 || letters > 9 {
        return None;
    }
    let front = text.first_chunk::<3>()?;
    let is_month = MONTHS
        .iter()
        .any(|month| front.eq_ignore_ascii_case(month.as_bytes()));
    if is_month {
        without(text, letters)
    } else {
        None
    }
}

/// Returns what follows a fraction of a second, or the whole if there is none.
fn without_fraction(text: &[u8]) -> &[u8] {
    match text {
        [b'.', rest @ ..] => {
            let digits = digit_count(rest);
            if digits > 0 {
                without(rest, digits).unwrap_or(&[])
            } else {
                text
            }
        }
        _ => text,
    }
}

/// Returns nothing after an offset from UTC, and the whole if there is none.
fn without_offset(text: &[u8]) -> &[u8] {
    let is_offset = match text {
        [b'Z'] => true,
        [b'+' | b'-', rest @ ..] => {
            matches!(rest.len(), 2 | 4 | 5)
                && rest
                    .iter()
                    .all(|byte| byte.is_ascii_digit() || *byte == b':')
        }
        _ => false,
    };
    if is_offset { &[] } else { text }
}

/// Returns what follows a step of a form in a text, if it is there.
fn after_step(step: u8, text: &[u8]) -> Option<&[u8]> {
    let digits = digit_count(text);
    match step {
        b'y' if digits == 4 => without(text, 4),
        b'z' if digits == 2 => without(text, 2),
        b'n' if digits == 1 || digits == 2 => without(text, digits),
        b'y' | b'z' | b'n' => None,
        b'b' => without_month(text),
        b'f' => Some(without_fraction(text)),
        b'o' => Some(without_offset(text)),
        _ if text.first() == Some(&step) => without(text, 1),
        _ => None,
    }
}

/// Returns whether a text is of a form, and then whether one of its days or months has one digit.
pub(crate) fn fits_form(steps: &str, text: &[u8]) -> Option<bool> {
    let mut rest = text;
    let mut is_loose = false;
    for step in steps.as_bytes() {
        is_loose |= *step == b'n' && digit_count(rest) == 1;
        rest = after_step(*step, rest)?;
    }
    if rest.is_empty() {
        Some(is_loose)
    } else {
        None
    }
}
