//! The field that the text between two structural places is.
ghost use Rattle.std.specs.Prelude.{◌≡◌, ◌≤◌, true, slice_range};
ghost use Rattle.std.specs.Str.{is_utf8, IsCharBoundary};
ghost use Rattle.csv_fields.specs.Raw.{raw_view};
ghost use Rattle.csv_fields.specs.Between.{raw_between, without_return};

use crate::raw::Raw;

/// Returns the field that the text between two structural places is.
#[inline(always)]
pub fn between(piece: &str) -> Raw<'_>
    requires { is_utf8 (raw_between piece.now).bytes ≡ true }
    ensures { raw_between piece.now ≡ raw_view result }
{
    let field = without_return(piece);
    match field.as_bytes() {
        [b'"', inner @ ..] => Raw {
            bytes: &field[1..inner.len().max(1)],
            quoted: true,
        },
        _ => Raw {
            bytes: field,
            quoted: false,
        },
    }
}

/// Returns the text without a CR at its end, which belongs to the line break.
#[inline(always)]
fn without_return(text: &str) -> &str
    ensures { result.now ≡ without_return text.now }
{
    match text.as_bytes() {
        [front @ .., b'\r'] => &text[..front.len()],
        _ => text,
    }
}

/// Returns the text from a place up to another.
#[inline(always)]
pub fn piece(bytes: &str, start: usize, end: usize) -> &str
    requires order { start ≤ end }
    requires start { IsCharBoundary bytes.now start }
    requires end { IsCharBoundary bytes.now end }
    ensures { result.now ≡ slice_range bytes.now start end }
{
    &bytes[start..end]
}
