//! What is said of the texts of the wanted rows of a block, each by itself.

ghost use Rattle.std.specs.Prelude.{◌≡◌, ◌<◌, ℕ, IfOk, IsTrue, length, map};
ghost use Rattle.text_columns.specs.Codes.{AreCodes};
ghost use Rattle.typed_trees.specs.TypedTree.{optional_text};
ghost use Rattle.number_kernels.specs.Lanes.{truth_lane, HasTruths, IsWanted};
ghost use Rattle.text_kernels.specs.Texts.{answered, text_at, text_lane, AreAmong, AreTextsLong, HasAnswers};

use crate::codes::spread;
use crate::equality::equal;
use crate::question::{TextQuestion, answer_of};
use crate::relation::TextRelation;
use crate::search::contain;
use crate::texts::Texts;
use cell_types::ComparisonOperator;
use number_kernels::Fallback;
use row_eval::Truth;
use std::alloc::Global;
use text_columns::{TextCodes, TextColumn};
use typed_trees::TextTest;

/// Returns what is said of the text of a row, if it is wanted.
#[inline(always)]
fn answer_at(is_wanted: bool, question: TextQuestion<'_>, texts: Texts<'_>, row: usize) -> Truth
    requires { (rows : ℕ) × (row < rows) × AreTextsLong rows texts }
    ensures { IsTrue is_wanted → result ≡ answered question.entry (text_lane texts.entry row) }
{
    if !is_wanted {
        return Truth::False;
    }
    answer_of(question, texts.at(row))
}

/// Writes what is said of the texts of the wanted rows.
fn answer_each(question: TextQuestion<'_>, texts: Texts<'_>, wanted: &[bool], out: &mut [Truth])
    requires texts { AreTextsLong (length out.old) texts }
    requires wanted { length wanted.now ≡ length out.old }
    ensures { (i : ℕ) → i < length out.new → IsWanted wanted.now i
        → truth_lane out.new i ≡ answered question.entry (text_lane texts.entry i) }
{
    for i in 0..out.len() {
        out[i] = answer_at(wanted[i], question, texts, i);
    }
}

/// Returns what is said of the texts of the wanted rows, in a list of its own, one text after another.
fn answer_texts(
    alloc: Global,
    question: TextQuestion<'_>,
    texts: Texts<'_>,
    wanted: &[bool],
) -> Result<Vec<Truth>, Fallback>
    requires { AreTextsLong (length wanted.now) texts }
    ensures { IfOk result
        (λ truths. HasAnswers (answered question.entry) texts.entry wanted.now truths.items) }
{
    let mut truths = Vec::from_elem(alloc, Truth::False, wanted.len())?;
    answer_each(question, texts, wanted, truths.as_mut_slice());
    Ok(truths)
}

/// Returns what is said of the texts of a block with codes. It is asked once for each code.
fn answer_codes<'a>(
    alloc: Global,
    question: TextQuestion<'_>,
    texts: &'a TextColumn<'a>,
    codes: &'a TextCodes,
) -> Result<Vec<Truth>, Fallback>
    requires { AreCodes codes.now texts.now }
    ensures { IfOk result (λ truths. HasTruths (length texts.now)
        (λ row. answered question.entry (text_at texts.now row)) truths.items) }
{
    let wanted = Vec::from_elem(alloc, true, codes.rows.len())?;
    let rows = Texts::Rows(texts, codes.rows.as_slice());
    let answers = answer_texts(alloc, question, rows, wanted.as_slice())?;
    let truths = spread(alloc, codes.codes.as_slice(), answers.as_slice())?;
    Ok(truths)
}

/// Returns what is said of the texts of a column, on the wanted rows. Without codes a part is sought in all texts at once, and a text is
/// compared with all, also where few rows are wanted: to pass over the others costs as much.
pub(crate) fn answer_column<'a>(
    alloc: Global,
    question: TextQuestion<'_>,
    texts: &'a TextColumn<'a>,
    wanted: &[bool],
) -> Result<Vec<Truth>, Fallback>
    requires { length texts.now ≡ length wanted.now }
    ensures { IfOk result (λ truths.
        HasAnswers (answered question.entry) (Texts.Cells texts.entry) wanted.now truths.items) }
{
    if let Some(codes) = texts.codes() {
        let truths = answer_codes(alloc, question, texts, codes)?;
        return Ok(truths);
    }
    match question {
        TextQuestion::Related(TextRelation::Test(TextTest::Contains), part) => {
            let truths = contain(alloc, texts, part)?;
            Ok(truths)
        }
        TextQuestion::Related(TextRelation::Comparison(ComparisonOperator::Equal), part) => {
            let truths = equal(alloc, texts, part)?;
            Ok(truths)
        }
        _ => {
            let truths = answer_texts(alloc, question, Texts::Cells(texts), wanted)?;
            Ok(truths)
        }
    }
}

/// Returns which texts of the wanted rows are in a list.
pub fn texts_among(
    alloc: Global,
    texts: Texts<'_>,
    items: &[Option<String>],
    wanted: &[bool],
) -> Result<Vec<Truth>, Fallback>
    requires { AreTextsLong (length wanted.now) texts }
    ensures { IfOk result
        (λ truths. AreAmong texts.entry (map optional_text items.now) wanted.now truths.items) }
{
    let question = TextQuestion::Among(items);
    match texts {
        Texts::Cells(column) => answer_column(alloc, question, column, wanted),
        _ => answer_texts(alloc, question, texts, wanted),
    }
}
