//! Numbers of texts on the rows of a block: `length` and `indexof` (OData 4.01 URL Conventions, sections 5.1.1.5.4 and 5.1.1.5.6).

ghost use Rattle.std.specs.Prelude.{Some, IfOk, option_map};
ghost use Rattle.typed_trees.specs.TypedTree.{text_view};
ghost use Rattle.row_eval.specs.Outcome.{joined, text_outcome};
ghost use Rattle.row_eval.specs.Text.{index_in, length_in};
ghost use Rattle.block_eval.specs.Bounded.{GivesBounded};

use crate::bounded::Bounded;
use crate::columns::BlockColumn;
use crate::texts::eval_texts;
use number_kernels::Fallback;
use std::alloc::Global;
use text_kernels::{TextMeasure, measure};
use typed_trees::TextExpr;

/// Returns the lengths of texts, on the wanted rows of a block.
pub fn lengths_in<'a>(
    alloc: Global,
    text: &TextExpr,
    columns: &[BlockColumn<'_>],
    wanted: &[bool],
) -> Result<Bounded<'a>, Fallback>
    ensures { IfOk result (GivesBounded
        (λ cells. Some (option_map length_in (text_outcome (text_view text.now) cells)))
        columns.now wanted.now) }
{
    let texts = eval_texts(text, columns, wanted)?;
    let numbers = measure(alloc, TextMeasure::Length, texts, wanted)?;
    Ok(Bounded {
        numbers,
        bounds: None,
    })
}

/// Returns the places at which parts begin in texts, on the wanted rows of a block.
pub fn places_in<'a>(
    alloc: Global,
    text: &TextExpr,
    part: &TextExpr,
    columns: &[BlockColumn<'_>],
    wanted: &[bool],
) -> Result<Bounded<'a>, Fallback>
    ensures { IfOk result (GivesBounded
        (λ cells. Some (joined index_in (text_outcome (text_view text.now) cells)
        (text_outcome (text_view part.now) cells)))
        columns.now wanted.now) }
{
    let texts = eval_texts(text, columns, wanted)?;
    let parts = eval_texts(part, columns, wanted)?;
    let numbers = measure(alloc, TextMeasure::IndexOf(parts), texts, wanted)?;
    Ok(Bounded {
        numbers,
        bounds: None,
    })
}
