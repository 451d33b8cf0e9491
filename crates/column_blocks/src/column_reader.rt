//! The cells of the columns of a table, as the rows of its file are read, part by part.
ghost use Rattle.std.specs.Prelude.{◌≡◌, ◌<◌, ◌≤◌, ◌+◌, ◌⊎◌, [], IfOk, IfErr, OnOk, length, map};
ghost use Rattle.cell_types.specs.Kind.{kind_of};
ghost use Rattle.cell_types.specs.Column.{column_view};
ghost use Rattle.cell_types.specs.Datatype.{datatype_view};
ghost use Rattle.column_blocks.specs.ColumnReader.{cells_read, reader_at, with_cells};
ghost use Rattle.column_blocks.specs.Parts.{part_cells, HasCellFault, PartHasValues};

use crate::block_cells::{number_blocks, text_blocks};
use crate::number_reader::NumberReader;
use crate::text_reader::TextReader;
use crate::typed_column::TypedColumn;
use cell_types::{CellFault, Column, ColumnKind};
use csv_fields::Part;
use std::alloc::{AllocError, Global};
use std::marker::Model;

/// The cells that are read, which are numbers or texts.
#[derive(Drop)]
enum Cells {
    Numbers(NumberReader),
    Texts(TextReader),
}

/// The cells of a column that are read one after another.
#[derive(Drop)]
pub struct ColumnReader {
    cells: Cells,
}

impl Model for ColumnReader {
    ghost use Rattle.column_blocks.specs.ColumnReader.{reader_view, ReaderOf};

    ghost Value = { ReaderOf };

    ghost view = { λ r. reader_view r.cells };
}

impl ColumnReader {
    /// Returns a reader of `rows` cells of a column, none of which is read.
    fn new(alloc: Global, column: &Column, rows: usize) -> Result<ColumnReader, AllocError>
        ensures { IfOk result (λ reader. reader ≡ reader_at rows (column_view column.now) []) }
    {
        let cells = match column.datatype.kind() {
            ColumnKind::Number(kind) => Cells::Numbers(NumberReader::new(alloc, kind, rows)?),
            ColumnKind::Text => Cells::Texts(TextReader::new(alloc, rows)?),
        };
        Ok(ColumnReader { cells })
    }

    /// Reads the fields of a column in the rows of a part.
    pub fn read_part(
        &mut self,
        alloc: Global,
        column: &Column,
        part: &Part<'_, '_>,
        col: usize,
    ) -> Result<(), CellFault>
        requires column { kind_of (datatype_view column.now.datatype)
            ≡ self.old.kind }
        requires room { length self.old.cells + length part.now.rows ≤ self.old.rows }
        requires col { col < part.now.width }
        ensures values { OnOk result (PartHasValues (column_view column.now) col part.now.rows) }
        ensures cells { OnOk result (self.new ≡ with_cells self.old
            (part_cells (column_view column.now) col part.now.rows)) }
        ensures fault { IfErr result (λ e. (e ≡ CellFault.NoMemory)
            ⊎ HasCellFault (column_view column.now) col part.now.rows e) }
    {
        match &mut self.cells {
            Cells::Numbers(reader) => reader.read_part(alloc, column, part, col),
            Cells::Texts(reader) => reader.read_part(alloc, column, part, col),
        }
    }

    /// Returns the cells that were read.
    fn finish(self, alloc: Global) -> Result<TypedColumn, AllocError>
        ensures { IfOk result (λ column. column ≡ cells_read self) }
    {
        match self.cells {
            Cells::Numbers(reader) => {
                let kind = reader.kind();
                let blocks = number_blocks(alloc, kind, reader.finish(alloc)?)?;
                Ok(TypedColumn {
                    kind: ColumnKind::Number(kind),
                    blocks,
                })
            }
            Cells::Texts(reader) => {
                let blocks = text_blocks(alloc, reader.finish(alloc)?)?;
                Ok(TypedColumn {
                    kind: ColumnKind::Text,
                    blocks,
                })
            }
        }
    }
}

/// Returns the readers of columns of `rows` rows.
pub fn column_readers(
    alloc: Global,
    columns: &[Column],
    rows: usize,
) -> Result<Vec<ColumnReader>, AllocError>
    ensures { IfOk result
        (λ readers. readers.items
        ≡ map (λ column. reader_at rows column []) (map column_view columns.now)) }
{
    let mut readers = Vec::with_capacity(alloc, columns.len())?;
    for column in columns {
        readers.push(ColumnReader::new(alloc, column, rows)?)?;
    }
    Ok(readers)
}

/// Returns the columns that were read.
pub fn columns_read(
    alloc: Global,
    readers: Vec<ColumnReader>,
) -> Result<Vec<TypedColumn>, AllocError>
    ensures { IfOk result (λ columns. columns.items ≡ map cells_read readers.items) }
{
    let mut columns = Vec::with_capacity(alloc, readers.len())?;
    for reader in readers {
        columns.push(reader.finish(alloc)?)?;
    }
    Ok(columns)
}
