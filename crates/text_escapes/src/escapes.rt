//! The control characters of a text, written out.
ghost use Rattle.std.specs.Prelude.{◌≡◌, ◌++◌, ◌<◌, IfOk, OnOk, encode_utf8_all, string_bytes};
ghost use Rattle.std.specs.Char.{digit_char};
ghost use Rattle.text_escapes.specs.Escapes.{escaped, written};

use std::alloc::{AllocError, Global};

/// Returns a hexadecimal digit in lower case.
fn hex_digit(n: u32) -> char
    requires { n < 16 }
    ensures { result ≡ digit_char n }
{
    let digit = n as u8;
    if digit < 10 {
        (b'0' + digit) as char
    } else {
        (b'a' - 10 + digit) as char
    }
}

/// Appends what stands for a character.
fn push_written(out: &mut String, character: char) -> Result<(), AllocError>
    ensures { OnOk result
        (string_bytes out.new ≡ string_bytes out.old ++ encode_utf8_all (written character)) }
{
    if character.is_control() {
        let code = character as u32;
        out.push('\\')?;
        out.push('u')?;
        out.push(hex_digit(code / 4096 % 16))?;
        out.push(hex_digit(code / 256 % 16))?;
        out.push(hex_digit(code / 16 % 16))?;
        out.push(hex_digit(code % 16))
    } else {
        out.push(character)
    }
}

/// Returns the text as it stands in a message: each control character is written as `\u` and four hexadecimal digits.
pub fn escaped(alloc: Global, text: &str) -> Result<String, AllocError>
    ensures { IfOk result (λ out. string_bytes out ≡ escaped text.now) }
{
    let mut out = String::new(alloc);
    for character in text.chars() {
        push_written(&mut out, character)?;
    }
    Ok(out)
}
