//! The names of the columns of rows.
ghost use Rattle.std.specs.Prelude.{◌≡◌, ◌<◌, IfOk, length, map, string_bytes};
ghost use Rattle.std.specs.List.{All};
ghost use Rattle.query_meaning.specs.Apply.{names_at};

use cell_types::Column;
use std::alloc::{AllocError, Global};

/// Returns the names of columns.
pub fn names_of(alloc: Global, columns: &[Column]) -> Result<Vec<String>, AllocError>
    ensures { IfOk result (λ names.
        map string_bytes names.items ≡ map (λ column. string_bytes column.name) columns.now) }
{
    let mut names = Vec::with_capacity(alloc, columns.len())?;
    for column in columns {
        names.push(column.name.clone()?)?;
    }
    Ok(names)
}

/// Returns the names at these places.
pub fn picked_names(
    alloc: Global,
    names: &[String],
    places: &[usize],
) -> Result<Vec<String>, AllocError>
    requires { All (λ place. place < length names.now) places.now }
    ensures { IfOk result (λ picked.
        map string_bytes picked.items ≡ names_at places.now (map string_bytes names.now)) }
{
    let mut picked = Vec::with_capacity(alloc, places.len())?;
    for place in places {
        picked.push(names[*place].clone()?)?;
    }
    Ok(picked)
}
