//! Texts on a row, and parts of texts.

ghost use Rattle.std.specs.Prelude.{◌≡◌, ◌++◌, true, IfOk, IsErr, option_map, nat_eq, length};
ghost use Rattle.std.specs.Str.{chars};
ghost use Rattle.std.specs.Cow.{cow_str_bytes};
ghost use Rattle.std.specs.List.{starts_with as starts_with_of, ends_with as ends_with_of};
ghost use Rattle.typed_trees.specs.TypedTree.{text_view};
ghost use Rattle.row_eval.specs.Memory.{text_concatenates};
ghost use Rattle.row_eval.specs.Outcome.{text_outcome};
ghost use Rattle.row_eval.specs.Row.{row_view};
ghost use Rattle.row_eval.specs.Text.{has_part as has_part_of, index_in as index_in_of, length_in as length_in_of, place_of_part, text_passes as text_passes_of};

use cell_types::Value;
use memchr::memmem;
use std::alloc::{AllocError, Global};
use std::borrow::CowStr;
use typed_trees::{TextExpr, TextTest};

/// Concatenates two texts.
fn joined<'r>(alloc: Global, left: &str, right: &str) -> Result<CowStr<'r>, AllocError>
    ensures { IfOk result (λ text. cow_str_bytes text ≡ left.now ++ right.now) }
{
    let mut text = String::from_str(alloc, left)?;
    text.push_str(right)?;
    Ok(CowStr::Owned(text))
}

/// Returns a text on a row; none for null. Memory is taken for `concat` alone.
pub fn eval_text<'r>(
    alloc: Global,
    expr: &'r TextExpr,
    row: &'r [Value<'_>],
) -> Result<Option<CowStr<'r>>, AllocError>
    ensures value { IfOk result (λ text. option_map cow_str_bytes text
        ≡ text_outcome (text_view expr.now) (row_view row.now)) }
    ensures memory { IsErr result → text_concatenates (text_view expr.now) ≡ true }
{
    match expr {
        TextExpr::Null => Ok(None),
        TextExpr::Column(place) => match row.get(*place) {
            Some(Value::Text(text)) => Ok(Some(CowStr::Borrowed(text.as_str()))),
            _ => Ok(None),
        },
        TextExpr::Literal(text) => Ok(Some(CowStr::Borrowed(text.as_str()))),
        TextExpr::Concat(left, right) => {
            let left = eval_text(alloc, left, row)?;
            let right = eval_text(alloc, right, row)?;
            match (left, right) {
                (Some(left), Some(right)) => {
                    Ok(Some(joined(alloc, left.as_str(), right.as_str())?))
                }
                _ => Ok(None),
            }
        }
    }
}

/// Returns how many characters a text has.
fn char_count(text: &str) -> usize
    ensures { result ≡ length (chars text.now) }
{
    text.chars().count()
}

/// Returns the `length` of a text.
pub(crate) fn length_in(text: &str) -> i128
    ensures { result ≡ length_in_of text.now }
{
    char_count(text) as i128
}

/// Returns true if a part stands somewhere in a text.
pub fn has_part(text: &str, part: &str) -> bool
    ensures { result ≡ has_part_of text.now part.now }
{
    memmem::find(text.as_bytes(), part.as_bytes()).is_some()
}

/// Returns how many characters stand before the first place of a part, or `None` if it is no part.
fn char_place(text: &str, part: &str) -> Option<usize>
    ensures { result ≡ place_of_part (chars text.now) (chars part.now) }
{
    let at = text.find(part)?;
    Some(char_count(&text[..at]))
}

/// Returns the `indexof` of a part in a text: in characters from 0; -1 if it is no part.
pub fn index_in(text: &str, part: &str) -> i128
    ensures { result ≡ index_in_of text.now part.now }
{
    match char_place(text, part) {
        Some(place) => place as i128,
        None => -1,
    }
}

/// Returns true if a text begins with a part.
fn starts_with(text: &str, part: &str) -> bool
    ensures { result ≡ starts_with_of nat_eq text.now part.now }
{
    text.starts_with(part)
}

/// Returns true if a text ends with a part.
fn ends_with(text: &str, part: &str) -> bool
    ensures { result ≡ ends_with_of nat_eq text.now part.now }
{
    text.ends_with(part)
}

/// Returns what `contains`, `startswith` or `endswith` is of a text and a part.
pub fn text_passes(test: TextTest, text: &str, part: &str) -> bool
    ensures { result ≡ text_passes_of test text.now part.now }
{
    match test {
        TextTest::Contains => has_part(text, part),
        TextTest::StartsWith => starts_with(text, part),
        TextTest::EndsWith => ends_with(text, part),
    }
}
