//! Rows of a table that are kept.
ghost use Rattle.std.specs.Prelude.{◌≡◌, ◌<◌, [], None, IfOk, IfSome, OnOk, length};
ghost use Rattle.std.specs.List.{All};
ghost use Rattle.csvw_meta.specs.Schema.{schema_view};
ghost use Rattle.odata_query.specs.Query.{optional_numbers};
ghost use Rattle.row_columns.specs.Columns.{no_columns};
ghost use Rattle.row_columns.specs.Picked.{numbered};
ghost use Rattle.result_rows.specs.Kept.{kept_names, kept_places, AreKeptOf, ArePickedOf, HasKept, HasReduced};
ghost use Rattle.result_rows.specs.Selected.{selected_rows};

use crate::names::{names_of, picked_names};
use crate::rows::Rows;
use csvw_meta::Schema;
use row_columns::Columns;
use row_selection::Selection;
use std::alloc::{AllocError, Global};
use table_store::Block;

/// Rows of those columns of a table that are picked, or of all its columns.
#[derive(Drop)]
pub struct Kept {
    pub places: Option<Vec<usize>>,
    pub names: Vec<String>,
    pub columns: Columns,
}

impl Kept {
    /// Returns no columns, and no rows.
    pub fn none(alloc: Global) -> Kept
        ensures places { kept_places result ≡ None }
        ensures names { kept_names result ≡ [] }
        ensures columns { result.columns ≡ no_columns }
    {
        Kept {
            places: None,
            names: Vec::new(alloc),
            columns: Columns::none(alloc),
        }
    }

    /// Returns no rows yet.
    pub fn new(
        alloc: Global,
        schema: &Schema,
        places: Option<Vec<usize>>,
    ) -> Result<Kept, AllocError>
        requires { IfSome (optional_numbers places)
            (All (λ place. place < length (schema_view schema.now).columns)) }
        ensures places { IfOk result (λ kept. kept_places kept ≡ optional_numbers places) }
        ensures columns { IfOk result (λ kept. AreKeptOf kept (schema_view schema.now)) }
        ensures rows { IfOk result (λ kept. kept.columns.rows ≡ []) }
    {
        let columns = schema.columns.as_slice();
        let names = names_of(alloc, columns)?;
        match places {
            Some(places) => {
                let names = picked_names(alloc, names.as_slice(), places.as_slice())?;
                let columns = Columns::of_places(alloc, columns, places.as_slice())?;
                Ok(Kept {
                    places: Some(places),
                    names,
                    columns,
                })
            }
            None => Ok(Kept {
                places: None,
                names,
                columns: Columns::new(alloc, columns)?,
            }),
        }
    }

    /// Returns no rows yet, of those of its columns that have these places.
    pub fn picked(&self, alloc: Global, places: Vec<usize>) -> Result<Kept, AllocError>
        requires width { length self.now.columns.kinds ≡ length (kept_names self.now) }
        requires within { All (λ place. place < length (kept_names self.now)) places.items }
        ensures { IfOk result (λ made. ArePickedOf self.now places.items made) }
    {
        let names = picked_names(alloc, self.names.as_slice(), places.as_slice())?;
        let columns = self.columns.picked(alloc, places.as_slice(), &[])?;
        Ok(Kept {
            places: Some(places),
            names,
            columns,
        })
    }

    /// Keeps the selected rows of a block, after the others.
    pub fn take(
        &mut self,
        alloc: Global,
        block: &Block<'_>,
        rows: Selection,
    ) -> Result<(), AllocError>
        requires columns { AreKeptOf self.old block.now.schema }
        requires within { All (λ n. n < length block.now.rows) rows }
        ensures { OnOk result (HasKept self.old self.new
            (selected_rows (kept_places self.old) (numbered rows block.now.rows))) }
    {
        match &self.places {
            Some(places) => self.columns.take_places(alloc, block, places, rows),
            None => self.columns.take(alloc, block, rows),
        }
    }

    /// Keeps of the rows those with these numbers, in their order.
    pub fn reduce(&mut self, alloc: Global, numbers: &[usize]) -> Result<(), AllocError>
        requires { All (λ n. n < length self.old.columns.rows) numbers.now }
        ensures { OnOk result (HasReduced self.old self.new numbers.now) }
    {
        self.columns.put_in_order(alloc, numbers)
    }

    /// Returns all of the rows as an answer, and a count. It takes no memory.
    pub fn into_rows(self, count: Option<u64>) -> Rows
        requires { length self.columns.kinds ≡ length (kept_names self) }
        ensures { result ≡ record {
          names = kept_names self;
          rows = self.columns.rows;
          count = count;
        } }
    {
        let Kept { names, columns, .. } = self;
        Rows::new(names, columns, count)
    }
}
