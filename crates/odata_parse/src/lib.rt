//! The trees of OData expressions and query options from their tokens (OData 4.01 URL Conventions, section 5.1; OData ABNF
//! Construction Rules), and the values of the options that are numbers, flags and formats. Each parser gives the one tree or value that the grammar has,
//! or says that there is none.
#![tactic(auto)]

mod apply;
mod cursor;
mod depth;
mod expression;
mod fault;
mod flag;
mod format;
mod keyword;
mod law;
mod list;
mod literal;
mod number;
mod options;
pub mod tree;
mod whole;

pub use apply::parse_apply;
pub use depth::{MAX_OPEN, MAX_OPERATORS};
pub use expression::parse_filter;
pub use fault::{ParseFault, Syntax};
pub use flag::parse_flag;
pub use format::{Format, parse_format};
pub use law::{limits, one_tree};
pub use number::{MAX_NUMBER, MAX_NUMBER_DIGITS, parse_number};
pub use options::{parse_key, parse_orderby, parse_select};
