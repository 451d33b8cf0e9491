//! The names of the files of a folder.
ghost use Rattle.std.specs.Prelude.{◌≡◌, IfOk, is_none, map, string_bytes};
ghost use Rattle.csvw_meta.specs.Fault.{meta_cause};
ghost use Rattle.csvw_meta.specs.Schema.{schema_view};
ghost use Rattle.served_folders.specs.Names.{file_names, urls};

use csvw_meta::{Limits, MetaFault, Schema, Schemas};
use std::alloc::{AllocError, Global};

/// The name of the file that has the metadata of a folder.
pub const METADATA: &str = "csv-metadata.json";

/// Returns true if metadata was not read because memory ran out.
pub(crate) fn is_memory(fault: &MetaFault) -> bool
    ensures { result ≡ is_none (meta_cause fault.now) }
{
    matches!(fault, MetaFault::NoMemory)
}

/// Returns the urls of tables, in order.
fn urls_of(alloc: Global, tables: &[Schema]) -> Result<Vec<String>, AllocError>
    ensures { IfOk result (λ names.
        map string_bytes names.items ≡ urls (map schema_view tables.now)) }
{
    let mut names = Vec::new(alloc);
    for table in tables {
        names.push(table.url.clone()?)?;
    }
    Ok(names)
}

/// Returns the names of the files that metadata names, in its order; none if it is refused.
pub fn names_of(alloc: Global, meta: &[u8]) -> Result<Vec<String>, AllocError>
    ensures { IfOk result (λ names. map string_bytes names.items ≡ file_names meta.now) }
{
    match Schemas::read(alloc, meta, &Limits::greatest()) {
        Ok(schemas) => urls_of(alloc, schemas.tables.as_slice()),
        Err(fault) => {
            if is_memory(&fault) {
                return Err(AllocError);
            }
            Ok(Vec::new(alloc))
        }
    }
}
