//! The values of the options `$skip` and `$top`.

ghost use Rattle.std.specs.Result.{OkIff};
ghost use Rattle.std.specs.Str.Parse.{digits_value};
ghost use Rattle.odata_parse.specs.Number.{IsNumberText};

use crate::fault::Syntax;

/// The greatest number, the greatest value of an `Edm.Int64`.
pub const MAX_NUMBER: u64 = 9_223_372_036_854_775_807;

/// The most digits of a number.
pub const MAX_NUMBER_DIGITS: usize = 19;

/// Returns the number that a value of `$skip` or `$top` writes (OData 4.01 URL Conventions, section 5.1.6): 1 to 19 digits, and at most
/// [`MAX_NUMBER`].
pub fn parse_number(text: &str) -> Result<u64, Syntax>
    ensures { OkIff result (IsNumberText text.now) (digits_value 10 text.now) }
{
    // `parse` would take a leading plus.
    if text.len() > MAX_NUMBER_DIGITS || text.starts_with('+') {
        return Err(Syntax);
    }
    match text.parse::<u64>() {
        Ok(number) if number <= MAX_NUMBER => Ok(number),
        _ => Err(Syntax),
    }
}
