//! The texts of expressions on the rows of a block.

ghost use Rattle.std.specs.Prelude.{◌≡◌, ℕ, IfOk};
ghost use Rattle.typed_trees.specs.TypedTree.{text_view};
ghost use Rattle.row_eval.specs.Row.{cell, text_in as text_in_cell};
ghost use Rattle.block_eval.specs.Columns.{cell_in_column};
ghost use Rattle.text_kernels.specs.Texts.{text_lane, AreTextsLong};
ghost use Rattle.block_eval.specs.Texts.{AreTexts, GivesTexts};

use crate::columns::BlockColumn;
use number_kernels::Fallback;
use text_kernels::Texts;
use typed_trees::TextExpr;

/// Returns the texts of a column of that many rows.
fn texts_of<'a>(column: BlockColumn<'a>, rows: usize) -> Result<Texts<'a>, Fallback>
    ensures each { IfOk result (λ v. (row : ℕ)
        → text_in_cell (cell_in_column column.entry row) ≡ text_lane v row) }
    ensures long { IfOk result (AreTextsLong rows) }
{
    match column {
        BlockColumn::Texts(texts) if texts.len() == rows => Ok(Texts::Cells(texts)),
        _ => Err(Fallback::Rows),
    }
}

/// Returns the texts of a column.
fn texts_in<'a>(
    columns: &[BlockColumn<'a>],
    place: usize,
    wanted: &[bool],
) -> Result<Texts<'a>, Fallback>
    ensures { IfOk result
        (GivesTexts (λ cells. cell text_in_cell cells place) columns.now wanted.now) }
{
    let Some(column) = columns.get(place) else {
        return Err(Fallback::Rows);
    };
    let texts = texts_of(*column, wanted.len())?;
    Ok(texts)
}

/// Returns the texts of an expression on the wanted rows of a block.
pub fn eval_texts<'a>(
    expr: &'a TextExpr,
    columns: &[BlockColumn<'a>],
    wanted: &[bool],
) -> Result<Texts<'a>, Fallback>
    ensures { IfOk result (AreTexts (text_view expr.now) columns.now wanted.now) }
{
    match expr {
        TextExpr::Null => Ok(Texts::Null),
        TextExpr::Column(place) => texts_in(columns, *place, wanted),
        TextExpr::Literal(text) => Ok(Texts::Same(text.as_str())),
        TextExpr::Concat(_, _) => Err(Fallback::Rows),
    }
}
