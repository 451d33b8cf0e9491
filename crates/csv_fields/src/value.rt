//! The values of fields as they stand in a file.
ghost use Rattle.std.specs.Prelude.{◌≡◌, ◌⊎◌, Ok, Err, IfOk, IfErr, IsErrOf};
ghost use Rattle.cell_types.specs.Value.{value_view};
ghost use Rattle.cell_types.specs.Cell.{NeedsMemory};
ghost use Rattle.cell_types.specs.Column.{column_view};
ghost use Rattle.csv_grammar.specs.Raw.{raw_content};
ghost use Rattle.csv_fields.specs.Raw.{raw_view};
ghost use Rattle.csv_fields.specs.Values.{value_in};

use crate::raw::Raw;
use cell_types::{CellFault, Column, Value, read_text};
use std::alloc::Global;

/// Returns the value of a field in a column.
pub fn cell_value<'a>(alloc: Global, column: &Column, raw: Raw<'a>) -> Result<Value<'a>, CellFault>
    ensures value { IfOk result (λ value.
        value_in (column_view column.now, raw_view raw.entry) ≡ Ok (value_view value)) }
    ensures fault { IfErr result (λ e. (e ≡ CellFault.NoMemory)
        ⊎ (value_in (column_view column.now, raw_view raw.entry) ≡ Err e)) }

    // A copy is made only of a field in which a doubled quote stands, or of a text that must be normalized.
    ensures memory { IsErrOf result CellFault.NoMemory
        → (raw_content (raw_view raw.entry) ≡ raw.entry.bytes.now → ⊥)
        ⊎ NeedsMemory (column_view column.now) (raw_content (raw_view raw.entry)) }
{
    let text = raw.text(alloc)?;
    read_text(alloc, column, text)
}
