//! Dates as texts (OData ABNF Construction Rules, section 7: `dateValue`): four digits, `-`, two digits, `-`, two digits, and a day
//! of the calendar in the years 0001 to 9999.

ghost use Rattle.std.specs.Prelude.{◌≡◌, ◌≤◌, ◌<◌, length};
ghost use Rattle.std.specs.List.{list_all};
ghost use Rattle.std.specs.Char.{is_ascii_digit};
ghost use Rattle.std.specs.Str.Parse.{digits_value};
ghost use Rattle.odata_lex.specs.Token.{AreDigits, IsDayOrNone, IsDayOfText};
ghost use Rattle.odata_lex.specs.First.{is_date_form};

use jiff_core::civil::Date;

/// How many bytes a date has.
pub const DATE_LEN: usize = 10;

/// Returns true if the bytes are four digits, `-`, two digits, `-`, two digits.
pub fn is_date_form(text: &[u8]) -> bool
    ensures { result ≡ is_date_form text.now }
{
    text.len() == DATE_LEN
        && are_digits(&text[..4])
        && text[4] == b'-'
        && are_digits(&text[5..7])
        && text[7] == b'-'
        && are_digits(&text[8..DATE_LEN])
}

/// Returns true if each byte is a digit.
pub fn are_digits(bytes: &[u8]) -> bool
    ensures { result ≡ list_all is_ascii_digit bytes.now }
{
    bytes.iter().all(|b| b.is_ascii_digit())
}

// The number that digits write.
fn number(digits: &[u8]) -> u16
    requires digits { AreDigits digits.now }
    requires short { length digits.now ≤ 4 }
    ensures { result ≡ digits_value 10 digits.now }
{
    let mut value = 0;
    for b in digits {
        value = value * 10 + u16::from(*b - b'0');
    }
    value
}

// The day of the calendar, in the years from 1.
fn calendar_day(year: u16, month: u16, day: u16) -> Option<Date>
    requires year { year < 10000 }
    requires month { month < 100 }
    requires day { day < 100 }
    ensures { IsDayOrNone year month day result }
{
    if year == 0 {
        return None;
    }
    Date::new(year as i16, month as i8, day as i8).ok()
}

/// Returns the day that a text `YYYY-MM-DD` writes, or `None` if the calendar has no such day in the years 0001 to 9999.
pub fn date_in(text: &[u8]) -> Option<Date>
    ensures { IsDayOfText text.now result }
{
    if !is_date_form(text) {
        return None;
    }
    let year = number(&text[..4]);
    let month = number(&text[5..7]);
    let day = number(&text[8..DATE_LEN]);
    calendar_day(year, month, day)
}
