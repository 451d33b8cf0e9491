//! The row of a table that has a key.
ghost use Rattle.std.specs.Prelude.{◌≡◌, ◌<◌, IfOk, Some, length, option_map, slice_get};
ghost use Rattle.http.specs.StatusCode.{IsStatusCode};
ghost use Rattle.odata_query.specs.Query.{optional_numbers};
ghost use Rattle.row_eval.specs.Row.{row_view};
ghost use Rattle.odata_request.specs.Request.{RowsRequestOf};
ghost use Rattle.odata_http.specs.Exchange.{IsKeyLookup};
ghost use Rattle.odata_http.specs.Reply.{RespondsWithRows};
ghost use Rattle.odata_http.specs.Work.{MayFind, response_view};

use crate::response::{Response, error_response, row_response};
use cell_types::Value;
use odata_parse::Format;
use query_exec::Rows;
use reply_text::Code;
use std::alloc::{AllocError, Global};
use table_store::{Catalog, Table};

/// A key to be found.
#[derive(Drop)]
pub(crate) struct KeyLookup {
    /// The number of the table in the catalog, counted from 0.
    pub(crate) table: usize,
    /// A value for each column of the table's key.
    pub(crate) key: Vec<Value<'static>>,
    /// The numbers of the columns that are asked for, if not all are.
    pub(crate) select: Option<Vec<usize>>,
    /// The format of the answer.
    pub(crate) format: Format,
}

/// Returns the values of a row.
fn row_values<'t>(alloc: Global, table: &'t Table, row: usize) -> Result<Vec<Value<'t>>, AllocError>
    requires { row < length table.now.rows }
    ensures row { IfOk result
        (λ values. slice_get table.now.rows row ≡ Some (row_view values.items)) }
    ensures wide { IfOk result
        (λ values. length values.items ≡ length table.now.schema.columns) }
{
    let width = table.width();
    let mut values = Vec::with_capacity(alloc, width)?;
    for col in 0..width {
        values.push(table.value(alloc, row, col)?)?;
    }
    Ok(values)
}

impl KeyLookup {
    /// Returns the numbers of the columns that are asked for, if not all are.
    fn selected(&self) -> Option<&[usize]>
        ensures { option_map (λ places. places.now) result ≡ optional_numbers self.now.select }
    {
        self.select.as_deref()
    }

    /// Returns the row, or that none has the key.
    pub(crate) fn answer(self, alloc: Global, catalog: &Catalog) -> Result<Response, AllocError>
        requires { MayFind catalog.now self }
        ensures responds { (asked : RowsRequestOf) → IsKeyLookup catalog.now asked self
            → IfOk result (λ response. RespondsWithRows catalog.now asked (response_view response)) }
        ensures known { IfOk result (λ response. IsStatusCode response.status) }
    {
        let table = &catalog.tables()[self.table];
        match table.find(self.key.as_slice()) {
            Some(row) => {
                let values = row_values(alloc, table, row)?;
                let rows = Rows::of_row(alloc, table.schema(), &values, self.selected())?;
                row_response(alloc, rows, self.format)
            }
            None => error_response(alloc, Code::NoSuchRow),
        }
    }
}
