//! The text of a percent-encoded part (RFC 3986, section 2.1), where a broken escape is a fault.
ghost use Rattle.std.specs.Prelude.{◌≡◌, is_none, string_bytes};
ghost use Rattle.odata_url.specs.Fault.{GivesPart};
ghost use Rattle.odata_url.specs.Escapes.{begins_with_digits, octets_of, decoded_text};

use crate::fault::UrlFault;
use percent_encoding::percent_decode;
use std::alloc::Global;

/// Returns the text that an encoded one says. A broken escape anywhere in it comes before bytes that are not UTF-8.
pub(crate) fn decode(alloc: Global, text: &[u8]) -> Result<String, UrlFault>
    ensures { GivesPart string_bytes (decoded_text text.now) result }
{
    if has_broken_escape(text) {
        return Err(UrlFault::BadEscape);
    }
    let octets = percent_decode(text).into_cow(alloc)?.into_owned(alloc)?;
    match simdutf8::basic::from_utf8(octets.as_slice()) {
        // The one condition of this call is that the octets are UTF-8, as the check has just answered.
        Ok(_) => Ok(unsafe { String::from_utf8_unchecked(octets) }),
        Err(_) => Err(UrlFault::BadUtf8),
    }
}

/// Returns true if some `%` is not followed by two hexadecimal digits.
fn has_broken_escape(text: &[u8]) -> bool
    ensures { result ≡ is_none (octets_of text.now) }
{
    let mut rest = text;
    while let Some((byte, behind)) = rest.split_first() {
        if *byte == b'%' && !begins_with_digits(behind) {
            return true;
        }
        rest = behind;
    }
    false
}

/// Returns true if two hexadecimal digits come first.
fn begins_with_digits(text: &[u8]) -> bool
    ensures { result ≡ begins_with_digits text.now }
{
    match text {
        [high, low, ..] => high.is_ascii_hexdigit() && low.is_ascii_hexdigit(),
        _ => false,
    }
}
