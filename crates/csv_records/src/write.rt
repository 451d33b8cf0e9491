//! Rows as a text of RFC 4180 (section 2).
ghost use Rattle.std.specs.Prelude.{◌≡◌, ◌<◌, ◌++◌, ◌∷◌, [], OnOk, length, map};
ghost use Rattle.std.specs.Cow.{cow_slice_items};
ghost use Rattle.std.specs.List.{list_any};
ghost use Rattle.csv_grammar.specs.Bytes.{comma};
ghost use Rattle.csv_grammar.specs.Records.{doubled, print_field, print_record};
ghost use Rattle.csv_records.specs.Written.{field_for, is_special, quoted_bytes, row_bytes};

use crate::read::RecordCell;
use std::alloc::AllocError;

/// Returns true if a byte can only be inside double quotes.
pub(crate) fn is_special(byte: u8) -> bool
    ensures { result ≡ is_special byte }
{
    byte == b'"' || byte == b',' || byte == b'\r' || byte == b'\n'
}

/// Returns true if a cell has to be in double quotes.
fn needs_quotes(cell: &[u8]) -> bool
    ensures { result ≡ list_any is_special cell.now }
{
    cell.iter().any(|byte| is_special(*byte))
}

/// Appends a byte, a double quote as two.
fn push_byte(out: &mut Vec<u8>, byte: u8) -> Result<(), AllocError>
    ensures { OnOk result (out.new.items ≡ out.old.items ++ doubled (byte ∷ [])) }
{
    if byte == b'"' {
        out.extend_from_slice(b"\"\"")
    } else {
        out.extend_from_slice(&[byte])
    }
}

/// Appends the bytes of a cell, each double quote as two.
fn push_doubled(out: &mut Vec<u8>, cell: &[u8]) -> Result<(), AllocError>
    ensures { OnOk result (out.new.items ≡ out.old.items ++ doubled cell.now) }
{
    for byte in cell {
        push_byte(out, *byte)?;
    }
    Ok(())
}

/// Appends a cell in double quotes.
fn push_quoted(out: &mut Vec<u8>, cell: &[u8]) -> Result<(), AllocError>
    ensures { OnOk result (out.new.items ≡ out.old.items ++ quoted_bytes cell.now) }
{
    out.push(b'"')?;
    push_doubled(out, cell)?;
    out.push(b'"')?;
    Ok(())
}

/// Appends a cell as a field.
fn push_field(out: &mut Vec<u8>, cell: &[u8]) -> Result<(), AllocError>
    ensures { OnOk result (out.new.items ≡ out.old.items ++ print_field (field_for cell.now)) }
{
    if needs_quotes(cell) {
        push_quoted(out, cell)
    } else {
        out.extend_from_slice(cell)
    }
}

/// Appends a cell after a comma.
fn push_next(out: &mut Vec<u8>, cell: &[u8]) -> Result<(), AllocError>
    ensures { OnOk result (out.new.items
        ≡ out.old.items ++ comma ∷ print_field (field_for cell.now)) }
{
    out.push(b',')?;
    push_field(out, cell)
}

/// Appends cells as fields with commas between.
fn push_cells(out: &mut Vec<u8>, cells: &[RecordCell<'_>]) -> Result<(), AllocError>
    ensures { OnOk result (out.new.items ≡ out.old.items
        ++ print_record (map field_for (map cow_slice_items cells.now))) }
{
    let Some((first, others)) = cells.split_first() else {
        return Ok(());
    };
    push_field(out, first.as_slice())?;
    for cell in others {
        push_next(out, cell.as_slice())?;
    }
    Ok(())
}

/// Appends a row: its cells as fields, and an LF.
pub fn push_row(out: &mut Vec<u8>, cells: &[RecordCell<'_>]) -> Result<(), AllocError>
    ensures { OnOk result (out.new.items
        ≡ out.old.items ++ row_bytes (map cow_slice_items cells.now)) }
{
    push_cells(out, cells)?;
    out.push(b'\n')?;
    Ok(())
}
