//! What is left of tables that nobody reads any more. It is dropped in parts, since a large table takes milliseconds to drop.
ghost use Rattle.std.specs.Prelude.{◌≡◌, ◌-◌, nat_lt};
ghost use Rattle.table_store.specs.Remains.{parts_of_tables};

use crate::table::Table;
use block_summary::Summary;
use column_blocks::{BlockCells, TypedColumn};
use std::alloc::Global;
use std::marker::Model;

/// What is left of tables: those that are whole, the columns and the summaries of one more, and the blocks of one column. It is seen as the number of its parts.
#[derive(Drop)]
pub struct Remains {
    tables: Vec<Table>,
    summaries: Vec<Summary>,
    columns: Vec<TypedColumn>,
    blocks: Vec<BlockCells>,
}

impl Model for Remains {
    ghost use Rattle.std.specs.Prelude.{ℕ};

    ghost Value = { ℕ };

    ghost use Rattle.table_store.specs.Remains.{remaining_parts};

    ghost view = { remaining_parts };
}

impl Remains {
    /// Returns all of these tables.
    pub(crate) fn of_tables(alloc: Global, tables: Vec<Table>) -> Remains
        ensures { result ≡ parts_of_tables tables.items }
    {
        Remains {
            tables,
            summaries: Vec::new(alloc),
            columns: Vec::new(alloc),
            blocks: Vec::new(alloc),
        }
    }

    /// Drops one part: a block or a summary, or what holds those of a column or a table. Returns false if none is left.
    pub fn drop_part(&mut self) -> bool
        ensures left { self.new ≡ self.old - 1 }
        ensures some { result ≡ nat_lt 0 self.old }
    {
        if self.blocks.pop().is_some() {
            return true;
        }
        if self.summaries.pop().is_some() {
            return true;
        }
        if let Some(column) = self.columns.pop() {
            self.blocks = column.into_blocks();
            return true;
        }
        let Some(table) = self.tables.pop() else {
            return false;
        };
        let (columns, summaries) = table.into_parts();
        self.columns = columns;
        self.summaries = summaries;
        true
    }
}
