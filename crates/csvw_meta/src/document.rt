//! The value of a JSON text after a byte order mark, and the schemas that it says.
ghost use Rattle.std.specs.Prelude.{◌≡◌, [], map, codes, Ok, Err, Some, None, IfOk, IfErr, IfSome};
ghost use Rattle.serde_json.specs.Data.{null};
ghost use Rattle.serde_json.specs.View.{view};
ghost use Rattle.csv_grammar.specs.Files.{text_of};
ghost use Rattle.csvw_meta.specs.Fault.{meta_cause};
ghost use Rattle.csvw_meta.specs.Limits.{limits_view};
ghost use Rattle.csvw_meta.specs.Refusal.{condition_of, first_cause};
ghost use Rattle.csvw_meta.specs.Schema.{schema_view};
ghost use Rattle.csvw_meta.specs.Document.{document, is_group as is_group_of, lone_table_conditions, object_conditions, metadata_conditions, metadata_schemas, schemas_of, schemas_view};

use crate::fault::MetaFault;
use crate::group::{check_group, make_group};
use crate::limits::{Limits, MOST_METADATA_BYTES};
use crate::members::has;
use crate::refusal::{Refusal, ensure};
use crate::schema::Schema;
use crate::table::{check_table, make_table};
use csv_grammar::mark_len;
use serde_json::Value;
use std::alloc::{AllocError, Global};

/// The schemas of a folder, in the order of its metadata.
#[derive(Drop)]
pub struct Schemas {
    pub tables: Vec<Schema>,
}

/// Returns the bytes after a byte order mark.
fn text(bytes: &[u8]) -> &[u8]
    ensures { result.now ≡ text_of bytes.now }
{
    &bytes[mark_len(bytes)..]
}

/// Returns the value that the bytes are.
fn read_document(alloc: Global, bytes: &[u8]) -> Result<Value, MetaFault>
    ensures value { IfOk result (λ value. document bytes.now ≡ Some (view value)) }
    ensures fault { IfErr result (λ e. IfSome (meta_cause e) (λ cause.
        (cause ≡ codes "NotJson") × (document bytes.now ≡ None))) }
{
    if bytes.len() > MOST_METADATA_BYTES {
        return Err(MetaFault::NotJson);
    }
    match Value::from_slice(alloc, text(bytes)) {
        Ok(value) => Ok(value),
        Err(e) => {
            if e.is_memory() {
                return Err(MetaFault::NoMemory);
            }
            Err(MetaFault::NotJson)
        }
    }
}

/// Returns true if the metadata is of a group of tables.
fn is_group(metadata: &Value) -> bool
    ensures { result ≡ is_group_of (view metadata.now) }
{
    has(metadata, "tables")
}

/// Returns the conditions on metadata. A table that stands alone is in no group.
#[tactic(auto, unfolding(crate::specs::Document::object_conditions, crate::specs::Document::lone_table_conditions))]
fn check_object<'v>(
    limits: &Limits,
    no_group: &'v Value,
    metadata: &'v Value,
) -> Result<(), Refusal<'v>>
    requires { view no_group.now ≡ null }
    ensures { condition_of result
        ≡ first_cause (object_conditions (limits_view limits.now) (view metadata.now)) }
{
    if is_group(metadata) {
        return check_group(limits, metadata);
    }
    ensure(has(metadata, "url"), MetaFault::NoTables)?;
    check_table(limits, no_group, &[], metadata)
}

/// Returns the conditions on metadata.
fn check_metadata<'v>(
    limits: &Limits,
    no_group: &'v Value,
    metadata: &'v Value,
) -> Result<(), Refusal<'v>>
    requires { view no_group.now ≡ null }
    ensures { condition_of result
        ≡ first_cause (metadata_conditions (limits_view limits.now) (view metadata.now)) }
{
    if metadata.is_object() {
        check_object(limits, no_group, metadata)
    } else {
        Err(Refusal::Fault(MetaFault::NotObject))
    }
}

/// Returns what metadata says, table by table.
fn make_schemas(alloc: Global, metadata: &Value) -> Result<Vec<Schema>, AllocError>
    ensures { IfOk result
        (λ made. map schema_view made.items ≡ metadata_schemas (view metadata.now)) }
{
    if is_group(metadata) {
        return make_group(alloc, metadata);
    }
    let mut made = Vec::new(alloc);
    made.push(make_table(alloc, &Value::Null, metadata)?)?;
    Ok(made)
}

impl Schemas {
    /// Returns what a metadata text says, after a byte order mark, or the first fault of the walk over it.
    #[tactic(auto, unfolding(crate::specs::Document::schemas_of_value))]
    pub fn read(alloc: Global, bytes: &[u8], limits: &Limits) -> Result<Schemas, MetaFault>
        ensures schemas { IfOk result
            (λ schemas. schemas_of (limits_view limits.now) bytes.now ≡ Ok (schemas_view schemas)) }
        ensures fault { IfErr result (λ e. IfSome (meta_cause e)
            (λ cause. schemas_of (limits_view limits.now) bytes.now ≡ Err cause)) }
    {
        let metadata = read_document(alloc, bytes)?;
        if let Err(refusal) = check_metadata(limits, &Value::Null, &metadata) {
            return Err(refusal.fault(alloc));
        }
        match make_schemas(alloc, &metadata) {
            Ok(tables) => Ok(Schemas { tables }),
            Err(_) => Err(MetaFault::NoMemory),
        }
    }
}
