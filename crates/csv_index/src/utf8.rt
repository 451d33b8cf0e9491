//! Texts from bytes.
ghost use Rattle.std.specs.Prelude.{◌≡◌, IfOk, IfErr, IsUtf8, string_bytes};
ghost use Rattle.csv_index.specs.Fault.{IsNotUtf8};

use crate::fault::TextFault;

/// Checks that bytes are UTF-8. The error has how many of them are.
pub fn check_text(bytes: &[u8]) -> Result<(), TextFault>
    ensures utf8 { IfOk result (λ _. IsUtf8 bytes.now) }
    ensures fault { IfErr result (IsNotUtf8 bytes.now) }
{
    match simdutf8::compat::from_utf8(bytes) {
        Ok(_) => Ok(()),
        Err(e) => Err(TextFault::NotUtf8 {
            at: e.valid_up_to(),
        }),
    }
}

/// Returns the bytes of a file as a text, without an allocation. The error has how many of them are UTF-8.
pub fn text_of(bytes: Vec<u8>) -> Result<String, TextFault>
    ensures text { IfOk result (λ text. string_bytes text ≡ bytes.items) }
    ensures fault { IfErr result (IsNotUtf8 bytes.items) }
{
    check_text(bytes.as_slice())?;
    Ok(checked_text(bytes))
}

/// Returns bytes that are UTF-8 as a text, without an allocation.
fn checked_text(bytes: Vec<u8>) -> String
    requires { IsUtf8 bytes.items }
    ensures { string_bytes result ≡ bytes.items }
{
    // The one condition of this call is that the bytes are UTF-8.
    unsafe { String::from_utf8_unchecked(bytes) }
}
