//! What the text of a cell looks like that no datatype reads as it was meant: a day, a time, or a number.
use crate::cells::are_digits;
use crate::steps::fits_form;

/// The looks of days and times: a form as people write it, if each day and month may have one digit, the same if each has two, and its steps. In the
/// steps `y` is four digits, `n` one or two, `z` two, `b` a month's name in English, `f` digits after a point, if there are some, and `o` an offset from
/// UTC, if there is one; any other byte is itself.
const DAYS: [(&str, &str, &str); 26] = [
    ("yyyy-M-d", "yyyy-MM-dd", "y-n-n"),
    ("yyyy/M/d", "yyyy/MM/dd", "y/n/n"),
    ("yyyy.M.d", "yyyy.MM.dd", "y.n.n"),
    ("d/M/yyyy or M/d/yyyy", "dd/MM/yyyy or MM/dd/yyyy", "n/n/y"),
    ("d.M.yyyy", "dd.MM.yyyy", "n.n.y"),
    ("d-M-yyyy", "dd-MM-yyyy", "n-n-y"),
    ("d/M/yy or M/d/yy", "dd/MM/yy or MM/dd/yy", "n/n/z"),
    ("d.M.yy", "dd.MM.yy", "n.n.z"),
    ("MMM d yyyy", "MMM dd yyyy", "b n y"),
    ("MMM d, yyyy", "MMM dd, yyyy", "b n, y"),
    ("MMM-d-yyyy", "MMM-dd-yyyy", "b-n-y"),
    ("d MMM yyyy", "dd MMM yyyy", "n b y"),
    ("d-MMM-yyyy", "dd-MMM-yyyy", "n-b-y"),
    ("d-MMM-yy", "dd-MMM-yy", "n-b-z"),
    ("MMM yyyy", "MMM yyyy", "b y"),
    ("yyyy-MM", "yyyy-MM", "y-z"),
    ("H:mm", "HH:mm", "n:z"),
    ("H:mm:ss", "HH:mm:ss", "n:z:zf"),
    ("yyyy-M-d H:mm", "yyyy-MM-dd HH:mm", "y-n-n n:z"),
    ("yyyy-M-d H:mm:ss", "yyyy-MM-dd HH:mm:ss", "y-n-n n:z:zfo"),
    ("yyyy-M-dTH:mm", "yyyy-MM-ddTHH:mm", "y-n-nTn:zo"),
    ("yyyy-M-dTH:mm:ss", "yyyy-MM-ddTHH:mm:ss", "y-n-nTn:z:zfo"),
    ("yyyy/M/d H:mm", "yyyy/MM/dd HH:mm", "y/n/n n:z"),
    ("yyyy/M/d H:mm:ss", "yyyy/MM/dd HH:mm:ss", "y/n/n n:z:zf"),
    (
        "d/M/yyyy H:mm or M/d/yyyy H:mm",
        "dd/MM/yyyy HH:mm or MM/dd/yyyy HH:mm",
        "n/n/y n:z",
    ),
    ("d.M.yyyy H:mm", "dd.MM.yyyy HH:mm", "n.n.y n:z"),
];

/// The looks of numbers, after those of days and times: how they are called if all are integers, and if some have decimal places.
const NUMBERS: [(&str, &str); 6] = [
    ("integers", "numbers"),
    (
        "numbers with commas between thousands",
        "numbers with commas between thousands",
    ),
    (
        "numbers with a decimal comma",
        "numbers with a decimal comma",
    ),
    ("percentages", "percentages"),
    ("amounts with a currency", "amounts with a currency"),
    ("numbers with an exponent", "numbers with an exponent"),
];

/// How many looks there are.
pub const LOOK_COUNT: usize = 32;

/// The look of plain numbers.
pub const PLAIN: usize = 26;

const GROUPS: usize = 27;

const COMMA: usize = 28;

const PERCENT: usize = 29;

const CURRENCY: usize = 30;

const EXPONENT: usize = 31;

/// The most bytes of a cell that looks like something.
const LONGEST: usize = 40;

/// The texts that stand for a currency before or after a number.
const CURRENCIES: [&str; 12] = [
    "$", "\u{20ac}", "\u{a3}", "\u{a5}", "EUR", "USD", "GBP", "CHF", "JPY", "US$", "Fr.", "kr",
];

/// What a cell looks like.
#[derive(Clone, Copy)]
pub struct Look {
    /// The index of the look.
    pub look: usize,
    /// A day or month has one digit, or the number decimal places.
    pub is_loose: bool,
    /// It is a number with more than six decimal places.
    pub is_fine: bool,
}

/// Returns how a look is called.
pub fn look_name(look: usize, is_loose: bool) -> &'static str {
    let pair = match DAYS.get(look) {
        Some((loose, strict, _)) => (*loose, *strict),
        None => match NUMBERS.get(look.saturating_sub(PLAIN)) {
            Some((strict, loose)) => (*loose, *strict),
            None => ("", ""),
        },
    };
    if is_loose { pair.0 } else { pair.1 }
}

/// Returns how many digits are in a text.
fn digit_count_in(text: &str) -> usize {
    text.as_bytes()
        .iter()
        .filter(|byte| byte.is_ascii_digit())
        .count()
}

/// Returns how many of the bytes of a text are one.
fn count_of(text: &str, wanted: u8) -> usize {
    text.as_bytes()
        .iter()
        .filter(|byte| **byte == wanted)
        .count()
}

/// Returns true if a text is of digits, commas and points, and a digit is last.
fn is_number(text: &str) -> bool {
    let bytes = text.as_bytes();
    let ends_in_digit = match bytes.last() {
        Some(last) => last.is_ascii_digit(),
        None => false,
    };
    ends_in_digit
        && bytes.iter().all(|byte| byte.is_ascii_digit() || *byte == b',' || *byte == b'.')
}

/// Returns the look of digits with commas and points, by how many there are of them and which is last.
fn digits_look(text: &str) -> Option<usize> {
    if !is_number(text) {
        return None;
    }
    let points = count_of(text, b'.');
    let Some((whole, places)) = text.rsplit_once(',') else {
        return if points > 1 { None } else { Some(PLAIN) };
    };
    let ends_in_point = places.contains('.');
    if ends_in_point && points == 1 || !ends_in_point && points == 0 && places.len() == 3 {
        return Some(GROUPS);
    }
    if ends_in_point || whole.contains(',') {
        None
    } else {
        Some(COMMA)
    }
}

/// Returns a text without the sign of a number.
fn without_sign(text: &str) -> &str {
    let rest = text.strip_prefix('-').unwrap_or(text);
    rest.strip_prefix('+').unwrap_or(rest)
}

/// Returns true for a number with an exponent, as 1.2e5.
fn has_exponent(text: &str) -> bool {
    let parts = text.split_once('e').or(text.split_once('E'));
    match parts {
        Some((number, exponent)) => {
            digits_look(number) == Some(PLAIN) && are_digits(without_sign(exponent))
        }
        None => false,
    }
}

/// Returns an amount without its currency, if it has one.
fn without_currency(text: &str) -> Option<&str> {
    for currency in CURRENCIES {
        if let Some(rest) = text.strip_prefix(currency).or(text.strip_suffix(currency)) {
            return Some(rest.trim_ascii());
        }
    }
    None
}

/// Returns the look of a number that has no sign.
fn number_look(text: &str) -> Option<usize> {
    if let Some(look) = digits_look(text) {
        return Some(look);
    }
    if has_exponent(text) {
        return Some(EXPONENT);
    }
    let (look, rest) = match text.strip_suffix('%') {
        Some(rest) => (PERCENT, rest.trim_ascii()),
        None => (CURRENCY, without_currency(text)?),
    };
    digits_look(without_sign(rest)).and(Some(look))
}

/// Returns how many decimal places a plain number has, but for zeros at its end.
fn place_count(text: &str) -> usize {
    match text.split_once('.') {
        Some((_, places)) => places.trim_end_matches('0').len(),
        None => 0,
    }
}

/// Returns what the text of a cell looks like, which has no white space at its ends, if it looks like a day, a time or a number.
pub fn look_of(text: &str) -> Option<Look> {
    if text.len() > LONGEST || digit_count_in(text) == 0 {
        return None;
    }
    let number = without_sign(text);
    if let Some(look) = number_look(number) {
        return Some(Look {
            look,
            is_loose: number.contains('.'),
            is_fine: look == PLAIN && place_count(number) > 6,
        });
    }
    for (look, (_, _, steps)) in DAYS.iter().enumerate() {
        if let Some(is_loose) = fits_form(steps, text.as_bytes()) {
            return Some(Look {
                look,
                is_loose,
                is_fine: false,
            });
        }
    }
    None
}
