//! The law of the grammars, and the limits as numbers.

ghost use Rattle.std.specs.Prelude.{◌≡◌};
ghost use Rattle.odata_parse.specs.Apply.{IsApply};
ghost use Rattle.odata_parse.specs.Expression.{IsFilter};
ghost use Rattle.odata_parse.specs.Laws.{HasOneTree};
ghost use Rattle.odata_parse.specs.Options.{IsOrder, IsSelection, IsKey};

use crate::depth::{MAX_OPEN, MAX_OPERATORS};
use crate::number::{MAX_NUMBER, MAX_NUMBER_DIGITS};

/// How deep tokens may nest, and how great a number of `$skip` and `$top` may be.
pub fn limits()
    ensures open { MAX_OPEN ≡ 32 }
    ensures operators { MAX_OPERATORS ≡ 8 }
    ensures number { MAX_NUMBER ≡ 9223372036854775807 }
    ensures number_digits { MAX_NUMBER_DIGITS ≡ 19 }
{}

/// Tokens have at most one tree as `$filter`, `$orderby`, `$select`, `$apply` and as a key, however deep and however many they are.
pub fn one_tree()
    ensures filter { HasOneTree IsFilter }
    ensures orderby { HasOneTree IsOrder }
    ensures select { HasOneTree IsSelection }
    ensures apply { HasOneTree IsApply }
    ensures key { HasOneTree IsKey }
{}
