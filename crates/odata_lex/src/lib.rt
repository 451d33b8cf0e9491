//! The tokens of an OData expression (OData 4.01 URL Conventions, section 5.1.1; OData ABNF Construction Rules, sections 6, 7 and 9).
//! [`lex`] gives the tokens of a text, or why it has none: a place where no token begins, or more than [`MAX_TOKENS`] tokens
//! before it.
#![tactic(auto)]

mod date;
mod fault;
mod first;
mod law;
mod lexer;
mod token;

pub use date::date_in;
pub use fault::LexFault;
pub use law::{limits, one_first_token, one_list_of_tokens, tokens_or_fault};
pub use lexer::lex;
pub use token::{MAX_DIGITS, MAX_FRACTION_DIGITS, MAX_TOKENS, MAX_WHOLE_DIGITS, Token, TokenKind};
