//! Some columns of rows (OData 4.01 URL Conventions, section 5.1.3).
ghost use Rattle.std.specs.Prelude.{◌≡◌, ◌<◌, IfOk, length};
ghost use Rattle.std.specs.List.{All};
ghost use Rattle.result_rows.specs.Rows.{columns_of};

use crate::cut::all_numbers;
use crate::names::picked_names;
use crate::rows::Rows;
use std::alloc::{AllocError, Global};

/// Returns the columns with these places.
pub(crate) fn columns_of(alloc: Global, rows: &Rows, places: &[usize]) -> Result<Rows, AllocError>
    requires { All (λ place. place < length rows.now.names) places.now }
    ensures { IfOk result (λ made. made ≡ columns_of places.now rows.now) }
{
    let all = all_numbers(alloc, rows.len())?;
    let columns = rows.columns().picked(alloc, places, all.as_slice())?;
    let names = picked_names(alloc, rows.names(), places)?;
    Ok(Rows::new(names, columns, rows.count()))
}
