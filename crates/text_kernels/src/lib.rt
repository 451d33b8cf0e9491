//! Texts on the rows of a block, and what is said of each: comparisons, `contains`, `startswith`, `endswith`, whether it is in a list, and its numbers (OData 4.01
//! URL Conventions, section 5.1.1). Where a block has few different texts, each of these is asked once. No column and no expression is known here.
#![tactic(auto)]

mod answers;
mod codes;
mod equality;
mod measures;
mod pairs;
mod question;
mod relation;
mod search;
mod texts;

pub use answers::texts_among;
pub use measures::{TextMeasure, measure};
pub use pairs::relate;
pub use relation::TextRelation;
pub use texts::Texts;
