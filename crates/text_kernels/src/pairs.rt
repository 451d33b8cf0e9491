//! What a relation says of two texts on each wanted row of a block.

ghost use Rattle.std.specs.Prelude.{◌≡◌, ◌<◌, ℕ, IfOk, IsTrue, length};
ghost use Rattle.number_kernels.specs.Lanes.{truth_lane, IsWanted};
ghost use Rattle.text_kernels.specs.Texts.{related, text_lane, AreRelated, AreTextsLong};

use crate::answers::answer_column;
use crate::question::TextQuestion;
use crate::relation::{TextRelation, relation_of};
use crate::texts::Texts;
use number_kernels::Fallback;
use row_eval::Truth;
use std::alloc::Global;

/// Returns what a relation says of the texts of a row, if it is wanted.
#[inline(always)]
fn relation_at(
    is_wanted: bool,
    relation: TextRelation,
    left: Texts<'_>,
    right: Texts<'_>,
    row: usize,
) -> Truth
    requires left { (rows : ℕ) × (row < rows) × AreTextsLong rows left }
    requires right { (rows : ℕ) × (row < rows) × AreTextsLong rows right }
    ensures { IsTrue is_wanted → result
        ≡ related relation (text_lane left.entry row) (text_lane right.entry row) }
{
    if !is_wanted {
        return Truth::False;
    }
    relation_of(relation, left.at(row), right.at(row))
}

/// Writes what a relation says of texts, on the wanted rows.
fn relate_each(
    relation: TextRelation,
    left: Texts<'_>,
    right: Texts<'_>,
    wanted: &[bool],
    out: &mut [Truth],
)
    requires left { AreTextsLong (length out.old) left }
    requires right { AreTextsLong (length out.old) right }
    requires wanted { length wanted.now ≡ length out.old }
    ensures { (i : ℕ) → i < length out.new → IsWanted wanted.now i
        → truth_lane out.new i
        ≡ related relation (text_lane left.entry i) (text_lane right.entry i) }
{
    for i in 0..out.len() {
        out[i] = relation_at(wanted[i], relation, left, right, i);
    }
}

/// Returns what a relation says of texts, on the wanted rows, in a list of its own, one pair after another.
fn relate_texts(
    alloc: Global,
    relation: TextRelation,
    left: Texts<'_>,
    right: Texts<'_>,
    wanted: &[bool],
) -> Result<Vec<Truth>, Fallback>
    requires left { AreTextsLong (length wanted.now) left }
    requires right { AreTextsLong (length wanted.now) right }
    ensures { IfOk result
        (λ truths. AreRelated relation left.entry right.entry wanted.now truths.items) }
{
    let mut truths = Vec::from_elem(alloc, Truth::False, wanted.len())?;
    relate_each(relation, left, right, wanted, truths.as_mut_slice());
    Ok(truths)
}

/// Returns what a relation says of texts, on the wanted rows, in a list of its own.
pub fn relate(
    alloc: Global,
    relation: TextRelation,
    left: Texts<'_>,
    right: Texts<'_>,
    wanted: &[bool],
) -> Result<Vec<Truth>, Fallback>
    requires left { AreTextsLong (length wanted.now) left }
    requires right { AreTextsLong (length wanted.now) right }
    ensures { IfOk result
        (λ truths. AreRelated relation left.entry right.entry wanted.now truths.items) }
{
    match (left, right) {
        (Texts::Cells(texts), Texts::Same(text)) => {
            let question = TextQuestion::Related(relation, text);
            let truths = answer_column(alloc, question, texts, wanted)?;
            Ok(truths)
        }
        _ => {
            let truths = relate_texts(alloc, relation, left, right, wanted)?;
            Ok(truths)
        }
    }
}
