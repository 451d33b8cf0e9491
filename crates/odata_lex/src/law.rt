//! What holds of every text: each function here is a theorem on the definitions of tokens, and does nothing.

ghost use Rattle.std.specs.Prelude.{◌≡◌};
ghost use Rattle.odata_lex.specs.Laws.{OneFirstToken, OneListOfTokens, TokensOrFault};

use crate::token::{MAX_DIGITS, MAX_FRACTION_DIGITS, MAX_TOKENS, MAX_WHOLE_DIGITS};

/// The limits of a text of tokens, as numbers.
pub fn limits()
    ensures tokens { MAX_TOKENS ≡ 1024 }
    ensures digits { MAX_DIGITS ≡ 38 }
    ensures whole_digits { MAX_WHOLE_DIGITS ≡ 32 }
    ensures fraction_digits { MAX_FRACTION_DIGITS ≡ 6 }
{}

/// A text begins with at most one token.
pub fn one_first_token()
    ensures { OneFirstToken }
{}

/// A text has one list of tokens, up to its end or up to its one first bad place.
pub fn one_list_of_tokens()
    ensures { OneListOfTokens }
{}

/// A text has tokens, is bad or has too many, and no two of these.
pub fn tokens_or_fault()
    ensures { TokensOrFault }
{}
