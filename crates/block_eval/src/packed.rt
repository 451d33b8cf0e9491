//! The numbers of a column as a block retains them: unpacked, or compared with a literal where they are.

ghost use Rattle.std.specs.Prelude.{◌≡◌, ◌<◌, ℕ, false, IfOk, IfSome, length, slice_index_or};
ghost use Rattle.block_summary.specs.Types.{cells_of_kind, numbers_of};
ghost use Rattle.row_eval.specs.Logic.{truth_of};
ghost use Rattle.block_eval.specs.Lanes.{truth_lane};
ghost use Rattle.block_eval.specs.Packed.{AreNumbersCompared, HasNumbersAt, IsUnpackedAt};

use crate::columns::BlockColumn;
use block_summary::{Bounds, PackedColumn};
use cell_types::{ComparisonOperator, NumberKind};
use number_kernels::Fallback;
use row_eval::{Truth, truth_of};
use std::alloc::Global;

/// Returns the column at a place if it is packed, has numbers of this kind and `rows` rows.
pub fn packed_in<'a>(
    columns: &[BlockColumn<'a>],
    place: usize,
    kind: NumberKind,
    rows: usize,
) -> Option<&'a PackedColumn>
    ensures numbers { IfSome result (λ column.
        HasNumbersAt columns.now place kind (numbers_of column.now)) }
    ensures typed { IfSome result (λ column.
        cells_of_kind kind (numbers_of column.now) ≡ column.now) }
    ensures long { IfSome result (λ column. length column.now ≡ rows) }
{
    let Some(BlockColumn::Packed(column)) = columns.get(place) else {
        return None;
    };
    if column.len() != rows || column.kind() != kind {
        return None;
    }
    Some(column)
}

/// The numbers of a column with its nulls, and two numbers between which the others lie, if such are known.
#[derive(Drop)]
pub struct Unpacked {
    pub values: Vec<i64>,
    pub nulls: Vec<bool>,
    pub bounds: Option<Bounds>,
}

/// Returns the numbers of the column at a place, if it has numbers of this kind and `rows` rows.
pub fn unpacked_at(
    alloc: Global,
    columns: &[BlockColumn<'_>],
    place: usize,
    kind: NumberKind,
    rows: usize,
) -> Result<Unpacked, Fallback>
    ensures { IfOk result (IsUnpackedAt columns.now place kind rows) }
{
    let Some(column) = packed_in(columns, place, kind, rows) else {
        return Err(Fallback::Rows);
    };
    let mut values = Vec::from_elem(alloc, 0i64, rows)?;
    column.unpack(values.as_mut_slice());
    let mut nulls = Vec::from_elem(alloc, true, rows)?;
    column.unpack_nulls(nulls.as_mut_slice());
    Ok(Unpacked {
        values,
        nulls,
        bounds: column.bounds(),
    })
}

/// Writes the truths that marks are.
fn truth_each(marks: &[bool], out: &mut [Truth])
    requires { length out.old ≡ length marks.now }
    ensures { (i : ℕ) → i < length out.new
        → truth_lane out.new i ≡ truth_of (slice_index_or marks.now i false) }
{
    for i in 0..out.len() {
        out[i] = truth_of(marks[i]);
    }
}

/// Returns for each number of a column whether a comparison holds between it and a number.
pub fn compare_packed(
    alloc: Global,
    operator: ComparisonOperator,
    column: &PackedColumn,
    number: i64,
) -> Result<Vec<Truth>, Fallback>
    ensures { IfOk result
        (λ truths. AreNumbersCompared operator (numbers_of column.now) number truths.items) }
{
    let mut marks = Vec::from_elem(alloc, false, column.len())?;
    column.mark_passing(operator, number, marks.as_mut_slice());
    let mut truths = Vec::from_elem(alloc, Truth::False, column.len())?;
    truth_each(marks.as_slice(), truths.as_mut_slice());
    Ok(truths)
}
