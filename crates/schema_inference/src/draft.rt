//! The draft of the metadata of files.
use crate::fault::DraftFault;
use csvw_meta::{Limits, Schema};
use metadata_text::schemas_json;
use std::alloc::Global;

/// Returns metadata that has the schemas, as the text of `csv-metadata.json`. It is not checked.
pub fn draft_text(
    alloc: Global,
    limits: Limits,
    schemas: &[Schema],
) -> Result<Vec<u8>, DraftFault> {
    if schemas.is_empty() {
        return Err(DraftFault::NoTables);
    }
    if schemas.len() > limits.tables as usize {
        return Err(DraftFault::TooManyTables);
    }
    Ok(schemas_json(alloc, schemas)?)
}
