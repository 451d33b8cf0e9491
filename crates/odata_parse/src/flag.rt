//! The value of the option `$count`.

ghost use Rattle.odata_parse.specs.Flag.{flag_of};
ghost use Rattle.odata_parse.specs.Format.{IsValueOrSyntax};

use crate::fault::Syntax;
use crate::keyword::spells;

/// Returns the boolean that a value of `$count` names (OData 4.01 URL Conventions, section 5.1.7): `true` or `false`, in any case of ASCII
/// letters.
pub fn parse_flag(text: &str) -> Result<bool, Syntax>
    ensures { IsValueOrSyntax (flag_of text.now) result }
{
    if spells(text, "true") {
        Ok(true)
    } else if spells(text, "false") {
        Ok(false)
    } else {
        Err(Syntax)
    }
}
