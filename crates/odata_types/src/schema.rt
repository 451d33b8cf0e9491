//! The columns of a table.

ghost use Rattle.std.specs.Prelude.{◌≡◌, IfOk};
ghost use Rattle.csvw_meta.specs.Schema.{schema_view};
ghost use Rattle.odata_types.specs.Columns.{inputs_view};
ghost use Rattle.odata_types.specs.Schema.{inputs_of};

use crate::types::{COLUMN_SIZE, ColumnType, InputColumn};
use csvw_meta::Schema;
use std::alloc::{AllocError, Global};

/// Returns the columns of a table.
pub fn schema_columns<'s>(
    alloc: Global,
    schema: &'s Schema,
) -> Result<Vec<InputColumn<'s>>, AllocError>
    ensures { IfOk result
        (λ columns. inputs_view columns.items ≡ inputs_of (schema_view schema.now)) }
{
    let mut columns = Vec::with_capacity(alloc, schema.columns.len())?;
    for column in &schema.columns {
        columns.push(InputColumn {
            name: column.name.as_str(),
            column_type: ColumnType {
                kind: column.datatype.kind(),
                size: COLUMN_SIZE,
            },
        })?;
    }
    Ok(columns)
}
