//! Currencies before or after a number.
ghost use Rattle.std.specs.Prelude.{◌≡◌, option_map};
ghost use Rattle.value_forms.specs.Scale.{trimmed_start};
ghost use Rattle.value_forms.specs.Units.{after_unit, before_unit, without_unit};

use crate::scale::trimmed_end;

/// A currency as it is written before or after a number.
#[derive(Clone, Copy)]
pub struct Unit<'a> {
    pub text: &'a str,
    pub is_before: bool,
}

/// The currencies that are known.
pub const UNITS: [&str; 13] = [
    "€", "$", "£", "¥", "EUR", "USD", "GBP", "CHF", "kr", "zł", "Fr.", "SEK", "JPY",
];

/// Returns a text without the white space at its front.
fn trimmed_start(text: &[u8]) -> &[u8]
    ensures { result.now ≡ trimmed_start text.now }
{
    text.trim_ascii_start()
}

/// Returns what comes after a currency, without white space between; `None` if the currency is not there.
fn after_unit<'a>(unit: &[u8], text: &'a [u8]) -> Option<&'a [u8]>
    ensures { option_map (λ number. number.now) result ≡ after_unit unit.now text.now }
{
    if text.starts_with(unit) {
        Some(trimmed_start(&text[unit.len()..]))
    } else {
        None
    }
}

/// Returns what comes before a currency, without white space between; `None` if the currency is not there.
fn before_unit<'a>(unit: &[u8], text: &'a [u8]) -> Option<&'a [u8]>
    ensures { option_map (λ number. number.now) result ≡ before_unit unit.now text.now }
{
    if text.ends_with(unit) {
        Some(trimmed_end(&text[..text.len() - unit.len()]))
    } else {
        None
    }
}

/// Returns the number before or after a currency, without the spaces between them; `None` if the currency is not there.
pub fn without_unit<'a>(unit: Unit<'_>, text: &'a [u8]) -> Option<&'a [u8]>
    ensures { option_map (λ number. number.now) result ≡ without_unit unit.entry text.now }
{
    if unit.is_before {
        after_unit(unit.text.as_bytes(), text)
    } else {
        before_unit(unit.text.as_bytes(), text)
    }
}
