//! A field as it stands in its file.
ghost use Rattle.std.specs.Prelude.{◌≡◌, ◌≢◌, ◌==◌, IfOk, IsOkAnd, string_bytes};
ghost use Rattle.std.specs.Bool.{MatchBool};
ghost use Rattle.std.specs.List.{list_any};
ghost use Rattle.std.specs.Cow.{cow_str_bytes, IsBorrowedStr};
ghost use Rattle.csv_grammar.specs.Bytes.{double_quote};
ghost use Rattle.csv_grammar.specs.Raw.{halved};

use std::alloc::{AllocError, Global};
use std::borrow::CowStr;

/// The bytes of a field without its enclosing double quotes.
#[derive(Clone, Copy)]
pub struct Raw<'a> {
    pub bytes: &'a str,
    /// Whether double quotes enclose the field, and each double quote in `bytes` is written as two.
    pub quoted: bool,
}

impl<'a> Raw<'a> {
    ghost use Rattle.csv_grammar.specs.Raw.{raw_content, raw_of};
    ghost use Rattle.csv_fields.specs.Raw.{raw_view};
    ghost use Rattle.csv_grammar.specs.Records.{Field, content};

    /// Returns what the field says: each pair of double quotes inside a quoted field is one (RFC 4180, section 2, rule 7). It copies only
    /// where such a pair stands; an error is out of memory for that copy.
    #[inline(always)]
    pub fn text(self, alloc: Global) -> Result<CowStr<'a>, AllocError>
        ensures content { IfOk result
            (λ text. cow_str_bytes text ≡ raw_content (raw_view self.entry)) }

        // So it is the content of the field that stands so.
        ensures field { (field : Field) → raw_of field ≡ raw_view self.entry
            → IfOk result (λ text. cow_str_bytes text ≡ content field) }

        // Where that is what stands there, no copy is made.
        ensures borrowed { raw_content (raw_view self.entry) ≡ self.entry.bytes.now
            → IsOkAnd result (λ text. IsBorrowedStr text) }
    {
        if self.quoted && has_pair(self.bytes) {
            Ok(CowStr::Owned(halved(alloc, self.bytes)?))
        } else {
            Ok(CowStr::Borrowed(self.bytes))
        }
    }
}

/// A double quote inside a quoted field is written as two.
const PAIR: &str = "\"\"";

/// Returns true if a pair of double quotes stands in the text, so that halving changes it.
fn has_pair(text: &str) -> bool
    ensures { MatchBool result (halved text.now ≢ text.now) (halved text.now ≡ text.now) }
{
    has_quote(text) && text.contains(PAIR)
}

/// Returns true if a double quote stands in the text.
#[inline(always)]
fn has_quote(text: &str) -> bool
    ensures { result ≡ list_any (λ byte. byte == double_quote) text.now }
{
    text.as_bytes().iter().any(|byte| *byte == b'"')
}

/// Returns a copy of the text with each pair of double quotes made one, in one pass.
fn halved(alloc: Global, text: &str) -> Result<String, AllocError>
    ensures { IfOk result (λ content. string_bytes content ≡ halved text.now) }
{
    let mut content = String::with_capacity(alloc, text.len())?;
    let mut rest = text;
    while let Some((front, behind)) = rest.split_once(PAIR) {
        content.push_str(front)?;
        content.push('"')?;
        rest = behind;
    }
    content.push_str(rest)?;
    Ok(content)
}
