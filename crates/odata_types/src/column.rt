//! Columns by their names.

ghost use Rattle.std.specs.Prelude.{◌≡◌, Ok};
ghost use Rattle.odata_types.specs.Columns.{inputs_view};
ghost use Rattle.odata_types.specs.Result.{Gives};
ghost use Rattle.typed_trees.specs.TypedTree.{typed_view};
ghost use Rattle.odata_types.specs.Typing.{column_expr as column_expr_of, name_typing, place_of as place_in};

use crate::fault::TypeFault;
use crate::types::{ColumnType, InputColumn};
use std::alloc::Global;
use typed_trees::TypedExpr;

/// Returns the number of the first column with that name, or how many there are if none has it.
pub fn place_of(columns: &[InputColumn<'_>], name: &str) -> usize
    ensures { result ≡ place_in (inputs_view columns.now) name.now }
{
    for (i, column) in columns.iter().enumerate() {
        if name == column.name {
            return i;
        }
    }
    columns.len()
}

/// Returns the column with that number.
fn column_expr(alloc: Global, place: usize, column_type: ColumnType) -> Result<TypedExpr, TypeFault>
    ensures { Gives typed_view (Ok (column_expr_of place column_type)) result }
{
    let column = TypedExpr::column(alloc, column_type.kind, place, column_type.size)?;
    Ok(column)
}

/// Returns the column with that name.
pub(crate) fn named_expr(
    alloc: Global,
    columns: &[InputColumn<'_>],
    name: &str,
) -> Result<TypedExpr, TypeFault>
    ensures { Gives typed_view (name_typing (inputs_view columns.now) name.now) result }
{
    let place = place_of(columns, name);
    match columns.get(place) {
        Some(column) => column_expr(alloc, place, column.column_type),
        None => Err(TypeFault::UnknownName),
    }
}
