//! The parts of a text between the places of one byte.
ghost use Rattle.std.specs.Prelude.{◌≡◌, ◌∷◌, ◌<◌, [], length, MatchOption, IfSome};
ghost use Rattle.odata_url.specs.Cuts.{in_front, behind, parts, parts_left};

use memchr::memchr;

/// Splits a text at the first place of a byte: the text before it, which is all of it if there is none, and the text after it.
pub(crate) fn cut(text: &[u8], byte: u8) -> (&[u8], Option<&[u8]>)
    ensures in_front { result.0.now ≡ in_front byte text.now }
    ensures behind { MatchOption result.1 (behind byte text.now ≡ [])
        (λ rest. rest.now ≡ behind byte text.now) }
    ensures parts { parts byte text.now ≡ result.0.now ∷ parts_left byte result.1 }
    ensures shorter { IfSome result.1 (λ rest. length rest.now < length text.now) }
{
    match memchr(byte, text) {
        Some(place) => (&text[..place], Some(&text[place + 1..])),
        None => (text, None),
    }
}
