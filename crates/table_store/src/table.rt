//! A table of a folder: its schema, the values of its cells, and its rows by their keys.
ghost use Rattle.std.specs.Prelude.{◌≡◌, ◌+◌, ◌^◌, ◌<◌, ◌≤◌, ℕ, List, Option, [], Some, None, IfOk, IsOk, IfErr, length, map, slice_get, slice_index_or, option_and_then, option_map, take, drop, string_bytes};
ghost use Rattle.std.specs.List.{sum_by, AllByRecursion};
ghost use Rattle.std.specs.Option.{option_copied};
ghost use Rattle.cell_types.specs.Value.{value_view};
ghost use Rattle.csvw_meta.specs.Schema.{schema_view};
ghost use Rattle.csvw_meta.specs.Laws.{HasShortDefaults};
ghost use Rattle.table_store.specs.Fits.{HasTableRows};
ghost use Rattle.table_store.specs.Fault.{bad_table, load_cause};
ghost use Rattle.key_index.specs.Key.{row_of};
ghost use Rattle.table_store.specs.Loading.{table_cause, HasKeyColumns};
ghost use Rattle.table_store.specs.Remains.{column_parts, table_parts};
ghost use Rattle.table_store.specs.Steps.{IsReadWhole, IsTableOfRows};
ghost use Rattle.table_store.specs.Summaries.{AreSummariesOf};
ghost use Rattle.table_store.specs.Table.{keys_of};

use crate::fault::LoadFault;
use crate::summaries::SummarizedRows;
use crate::table_fault::TableFault;
use block_summary::{BLOCK_ROWS, PackedColumn, Summary};
use cell_types::Value;
use column_blocks::{BlockCells, TypedColumn};
use csvw_meta::Schema;
use file_cells::{BadCell, FileFault};
use key_index::{KeyFault, Keys};
use std::alloc::{AllocError, Global};
use std::marker::Model;
use text_columns::TextColumn;

/// A table: the cells of each of its columns, by blocks of rows. Nothing of its file is kept beside them.
#[derive(Drop)]
pub struct Table {
    schema: Schema,
    /// How many rows there are.
    count: usize,
    columns: Vec<TypedColumn>,
    keys: Keys,
    /// Of each block of rows.
    summaries: Vec<Summary>,
}

impl Model for Table {
    ghost use Rattle.table_store.specs.Table.{TableOf};

    ghost Value = { TableOf };

    ghost use Rattle.table_store.specs.Inside.{table_view, IsWhole};

    ghost view = { table_view };

    ghost invariant = { IsWhole };
}

impl Table {
    ghost use Rattle.table_store.specs.Block.{block_count, block_of, packed_cells, text_cells, typed_cells_of};

    /// Returns the name that targets have.
    pub fn name(&self) -> &str
        ensures { result.now ≡ self.now.schema.name }
    {
        self.schema.name.as_str()
    }

    pub fn schema(&self) -> &Schema
        ensures { schema_view result.now ≡ self.now.schema }
    {
        &self.schema
    }

    /// Returns how many rows the table has.
    pub fn rows(&self) -> usize
        ensures { result ≡ length self.now.rows }
    {
        self.count
    }

    /// Returns how many columns the table has, and values each row.
    pub fn width(&self) -> usize
        ensures columns { result ≡ length self.now.schema.columns }
        ensures rows { AllByRecursion (λ values. length values ≡ result) self.now.rows }
    {
        self.columns.len()
    }

    /// Returns the value of a row and a column, both counted from 0.
    pub fn value(&self, _alloc: Global, row: usize, col: usize) -> Result<Value<'_>, AllocError>
        requires row { row < length self.now.rows }
        requires col { col < length self.now.schema.columns }
        ensures memory { IsOk result }
        ensures value { IfOk result (λ value.
            option_and_then (λ values. slice_get values col) (slice_get self.now.rows row)
            ≡ Some (value_view value)) }
    {
        Ok(self.columns[col].value(row))
    }

    /// Returns how many blocks the rows are, each of [`BLOCK_ROWS`] and the last perhaps of fewer.
    pub fn blocks(&self) -> usize
        ensures { result ≡ block_count (length self.now.rows) }
    {
        self.rows().div_ceil(BLOCK_ROWS)
    }

    /// Returns the summary of each block: the range of each of its columns.
    pub fn summary(&self) -> &[Summary]
        ensures { AreSummariesOf self.now result.now }
    {
        self.summaries.as_slice()
    }

    /// Returns the cells of a column in the block of a number; nothing for a column of texts.
    pub(crate) fn packed(&self, number: usize, col: usize) -> Option<&PackedColumn>
        requires number { number < block_count (length self.now.rows) }
        requires col { col < length self.now.schema.columns }
        ensures { option_copied result ≡ packed_cells (block_of self.now number) col }
    {
        self.columns[col].packed(number)
    }

    /// Returns the cells of a column in the block of a number; nothing for a column that is none of texts.
    pub(crate) fn texts(&self, number: usize, col: usize) -> Option<TextColumn<'_>>
        requires number { number < block_count (length self.now.rows) }
        requires col { col < length self.now.schema.columns }
        ensures { result ≡ text_cells (block_of self.now number) col }
    {
        self.columns[col].texts(number)
    }

    /// Returns the cells of a column in the block of a number, to be kept beside the table. It takes no memory.
    pub(crate) fn shared(&self, number: usize, col: usize) -> Result<BlockCells, AllocError>
        requires number { number < block_count (length self.now.rows) }
        requires col { col < length self.now.schema.columns }
        ensures { IfOk result
            (λ cells. Some cells ≡ typed_cells_of (block_of self.now number) col) }
    {
        self.columns[col].shared(number)
    }

    /// Each value is one that its column may have, no text has more than 2 to the 30 bytes, and there are no more rows than that.
    pub fn values_fit(&self)
        ensures { HasTableRows self.now }
    {
        let _schema = &self.schema; // a look at a field brings the invariant into sight
    }

    /// Returns the row, counted from 0, whose values in the columns of the key are those, in the order of the key (Metadata Vocabulary for
    /// Tabular Data, section 5.5); none, if no row has them or the table has no key.
    pub fn find(&self, key: &[Value<'_>]) -> Option<usize>
        ensures { result ≡ row_of (keys_of self.now) (map value_view key.now) }
    {
        self.keys
            .find(self.columns.as_slice(), self.schema.key.as_slice(), key)
    }

    /// Returns the table of a schema whose rows were read, with their keys and the summaries of their blocks.
    pub(crate) fn of_rows(schema: Schema, read: SummarizedRows) -> Table
        requires read { IsReadWhole (schema_view schema) read }
        requires key { HasKeyColumns (schema_view schema) }
        requires defaults { HasShortDefaults (schema_view schema) }
        ensures { IsTableOfRows (schema_view schema) read result }
    {
        cell_types::values_fit_columns();
        let SummarizedRows { rows, summaries } = read;
        Table {
            schema,
            count: rows.rows,
            columns: rows.columns,
            keys: rows.keys,
            summaries,
        }
    }

    /// Returns the columns and the summaries of the blocks.
    pub(crate) fn into_parts(self) -> (Vec<TypedColumn>, Vec<Summary>)
        ensures { sum_by column_parts result.0.items + length result.1.items + 1
            ≡ table_parts self }
    {
        let Table {
            columns,
            summaries,
            ..
        } = self;
        (columns, summaries)
    }
}

/// Returns the error of a folder that the fault of the table of that url is.
pub(crate) fn fault_of(table: String, fault: TableFault) -> LoadFault
    ensures cause { load_cause result
        ≡ option_map (bad_table (string_bytes table)) (table_cause fault) }
    ensures memory { fault ≡ TableFault.NoMemory → result ≡ LoadFault.NoMemory }
{
    match fault {
        TableFault::File(FileFault::Text(fault)) => LoadFault::Text { table, fault },
        TableFault::File(FileFault::Header(col)) => LoadFault::Header { table, col },
        TableFault::File(FileFault::Cell(BadCell { row, col, fault })) => LoadFault::Cell {
            table,
            row,
            col,
            fault,
        },
        TableFault::File(FileFault::NoMemory) => LoadFault::NoMemory,
        TableFault::Key(KeyFault::Null(row)) => LoadFault::KeyNull { table, row },
        TableFault::Key(KeyFault::Twice(row)) => LoadFault::KeyTwice { table, row },
        TableFault::NoMemory => LoadFault::NoMemory,
    }
}
