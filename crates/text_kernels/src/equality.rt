//! `eq` (OData 4.01 URL Conventions, section 5.1.1.1.1) between all texts of a column and one.

ghost use Rattle.std.specs.Prelude.{◌≡◌, ◌<◌, ℕ, Some, IfOk, length, option_map};
ghost use Rattle.cell_types.specs.declared.comparison.ComparisonOperator.TheVariants.{Equal};
ghost use Rattle.number_kernels.specs.Lanes.{truth_lane, HasTruths};
ghost use Rattle.text_kernels.specs.Texts.{related, text_at};
ghost use Rattle.text_kernels.specs.declared.relation.TextRelation.TheVariants.{Comparison};

use crate::relation::are_same;
use number_kernels::Fallback;
use row_eval::{Truth, truth_of};
use std::alloc::Global;
use text_columns::TextColumn;

/// Returns whether a text is the same as another; null is not.
#[inline(always)]
fn equality_of(text: Option<&str>, other: &str) -> Truth
    ensures { result ≡ related (Comparison Equal) (option_map (λ t. t.now) text.entry)
        (Some other.now) }
{
    truth_of(are_same(text, Some(other)))
}

/// Returns whether the texts of a column are the same as one. All are looked at, by their lengths first.
fn equal_each(texts: &TextColumn<'_>, other: &str, out: &mut [Truth])
    requires { length out.old ≡ length texts.now }
    ensures { (row : ℕ) → row < length texts.now → truth_lane out.new row
        ≡ related (Comparison Equal) (text_at texts.now row) (Some other.now) }
{
    for row in 0..out.len() {
        out[row] = equality_of(texts.text(row), other);
    }
}

/// Returns whether the texts of a column are the same as one; no null is.
pub fn equal(alloc: Global, texts: &TextColumn<'_>, other: &str) -> Result<Vec<Truth>, Fallback>
    ensures { IfOk result (λ truths. HasTruths (length texts.now)
        (λ row. related (Comparison Equal) (text_at texts.now row) (Some other.now)) truths.items) }
{
    let mut truths = Vec::from_elem(alloc, Truth::False, texts.len())?;
    equal_each(texts, other, truths.as_mut_slice());
    Ok(truths)
}
