//! The value of the option `$format`.

ghost use Rattle.odata_parse.specs.Format.{IsValueOrSyntax, format_of};

use crate::fault::Syntax;
use crate::keyword::spells;

/// The format of a reply.
#[derive(Clone, Copy, PartialEq, Eq)]
pub enum Format {
    /// JSON (RFC 8259).
    Json,
    /// CSV (RFC 4180).
    Csv,
}

/// Returns the format that a value of `$format` names (OData 4.01 URL Conventions, section 5.1.10): `json` or `application/json`, or `text/csv`, in any case
/// of ASCII letters.
pub fn parse_format(text: &str) -> Result<Format, Syntax>
    ensures { IsValueOrSyntax (format_of text.now) result }
{
    if spells(text, "json") || spells(text, "application/json") {
        Ok(Format::Json)
    } else if spells(text, "text/csv") {
        Ok(Format::Csv)
    } else {
        Err(Syntax)
    }
}
