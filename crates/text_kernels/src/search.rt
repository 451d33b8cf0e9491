//! `contains` (OData 4.01 URL Conventions, section 5.1.1.5.1) by one search over all texts of a column.

ghost use Rattle.std.specs.Prelude.{◌≡◌, ◌<◌, ℕ, Some, false, IfOk, length, option_map, slice_index_or};
ghost use Rattle.typed_trees.specs.declared.tree.TextTest.TheVariants.{Contains};
ghost use Rattle.number_kernels.specs.Lanes.{truth_lane, HasTruths};
ghost use Rattle.text_kernels.specs.Texts.{marked_truth, related, text_at};
ghost use Rattle.text_kernels.specs.declared.relation.TextRelation.TheVariants.{Test};

use number_kernels::Fallback;
use row_eval::{Truth, truth_of};
use std::alloc::Global;
use text_columns::TextColumn;

/// Returns what a mark says of a text; null of null.
#[inline(always)]
fn truth_by_mark(text: Option<&str>, is_marked: bool) -> Truth
    ensures { result ≡ marked_truth is_marked (option_map (λ t. t.now) text.entry) }
{
    match text {
        Some(_) => truth_of(is_marked),
        None => Truth::Null,
    }
}

/// Writes what marks say of the texts of a column.
fn truth_each(texts: &TextColumn<'_>, marks: &[bool], out: &mut [Truth])
    requires marks { length marks.now ≡ length texts.now }
    requires out { length out.old ≡ length texts.now }
    ensures { (row : ℕ) → row < length texts.now → truth_lane out.new row
        ≡ marked_truth (slice_index_or marks.now row false) (text_at texts.now row) }
{
    for row in 0..out.len() {
        out[row] = truth_by_mark(texts.text(row), marks[row]);
    }
}

/// Returns whether a part stands in the texts of a column; null if a text is null.
pub fn contain(alloc: Global, texts: &TextColumn<'_>, part: &str) -> Result<Vec<Truth>, Fallback>
    ensures { IfOk result (λ truths. HasTruths (length texts.now)
        (λ row. related (Test Contains) (text_at texts.now row) (Some part.now)) truths.items) }
{
    let mut marks = Vec::from_elem(alloc, false, texts.len())?;
    texts.mark_containing(part, marks.as_mut_slice());
    let mut truths = Vec::from_elem(alloc, Truth::False, texts.len())?;
    truth_each(texts, marks.as_slice(), truths.as_mut_slice());
    Ok(truths)
}
