//! What the texts of a block are asked, each by itself.

ghost use Rattle.std.specs.Prelude.{◌≡◌, map, option_map};
ghost use Rattle.std.specs.Cmp.Lexicographic.{slice_cmp};
ghost use Rattle.std.specs.Ordering.{nat_cmp};
ghost use Rattle.typed_trees.specs.TypedTree.{optional_text};
ghost use Rattle.row_eval.specs.Comparison.{is_among};
ghost use Rattle.text_kernels.specs.Texts.{answered};

use crate::relation::{TextRelation, are_same, relation_of};
use row_eval::{Truth, truth_of};

/// What is asked of a text.
#[derive(Clone, Copy)]
pub enum TextQuestion<'a> {
    /// What the relation says of it and this text.
    Related(TextRelation, &'a str),
    /// Whether it is one of the items.
    Among(&'a [Option<String>]),
}

/// Returns the text of an item.
fn item_text(item: &Option<String>) -> Option<&str>
    ensures { option_map (λ t. t.now) result ≡ optional_text item.now }
{
    match item {
        Some(text) => Some(text.as_str()),
        None => None,
    }
}

/// Returns true if a text is one of the items.
fn is_item(text: Option<&str>, items: &[Option<String>]) -> bool
    ensures { result ≡ is_among (slice_cmp nat_cmp) (option_map (λ t. t.now) text.entry)
        (map optional_text items.now) }
{
    for item in items {
        if are_same(text, item_text(item)) {
            return true;
        }
    }
    false
}

/// Returns what is said of a text.
pub(crate) fn answer_of(question: TextQuestion<'_>, text: Option<&str>) -> Truth
    ensures { result ≡ answered question.entry (option_map (λ t. t.now) text.entry) }
{
    match question {
        TextQuestion::Related(relation, part) => relation_of(relation, text, Some(part)),
        TextQuestion::Among(items) => truth_of(is_item(text, items)),
    }
}
