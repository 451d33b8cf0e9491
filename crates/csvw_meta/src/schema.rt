//! The schema of a table: the conditions on it, and its columns.
ghost use Rattle.std.specs.Prelude.{◌≡◌, [], ◌∷◌, codes, map, option_map, IfOk};
ghost use Rattle.serde_json.specs.View.{view};
ghost use Rattle.cell_types.specs.Column.{column_view};
ghost use Rattle.csvw_meta.specs.Limits.{limits_view};
ghost use Rattle.csvw_meta.specs.Refusal.{condition_of, first_cause, each_conditions};
ghost use Rattle.csvw_meta.specs.Members.{member as member_of, fits};
ghost use Rattle.csvw_meta.specs.Key.{is_key as is_key_of, key_of};
ghost use Rattle.csvw_meta.specs.Column.{column_conditions, said_column};
ghost use Rattle.csvw_meta.specs.Schema.{columns_in as columns_of, object_schema_conditions, schema_conditions};

use crate::column::{check_column, make_column};
use crate::fault::MetaFault;
use crate::inherited::check_inherited;
use crate::key::{is_key, make_key};
use crate::limits::Limits;
use crate::members::{absent, array_member, check_count, member};
use crate::refusal::{Refusal, ensure};
use cell_types::Column;
use serde_json::Value;
use std::alloc::{AllocError, Global};

/// The schema of one table.
#[derive(Drop)]
pub struct Schema {
    /// The file of the table, at most 132 characters.
    pub url: String,
    /// The url without `.csv`.
    pub name: String,
    /// In the order of the metadata, at least one.
    pub columns: Vec<Column>,
    /// The places of the key's columns, counted from 0; empty if the table has no key.
    pub key: Vec<usize>,
}

/// Returns the columns of a schema, none if it has none.
fn columns_in(schema: &Value) -> &[Value]
    ensures { map view result.now ≡ columns_of (view schema.now) }
{
    array_member(schema, "columns")
}

/// Returns the conditions on columns, one after another.
fn check_columns<'v>(columns: &'v [Value]) -> Result<(), Refusal<'v>>
    ensures { condition_of result
        ≡ first_cause (each_conditions column_conditions [] (map view columns.now)) }
{
    for (i, column) in columns.iter().enumerate() {
        check_column(&columns[..i], column)?;
    }
    Ok(())
}

/// Returns true if a schema with those columns has no `primaryKey`, or one that is a key.
fn has_key_or_none(schema: &Value, columns: &[Value]) -> bool
    ensures { result ≡ fits (is_key_of (map view columns.now))
        (member_of (codes "primaryKey") (view schema.now)) }
{
    match member(schema, "primaryKey") {
        Some(key) => is_key(columns, key),
        None => true,
    }
}

/// Returns the places of the columns of a schema's key, none if it has no key.
pub(crate) fn make_schema_key(alloc: Global, schema: &Value) -> Result<Vec<usize>, AllocError>
    ensures { IfOk result (λ made. made.items ≡ key_of (columns_of (view schema.now))
        (member_of (codes "primaryKey") (view schema.now))) }
{
    make_key(alloc, columns_in(schema), member(schema, "primaryKey"))
}

/// Returns the conditions on a schema that is an object.
#[tactic(auto, using(crate::proofs::RefusalLemmas::conditions), unfolding(crate::specs::Schema::object_schema_conditions))]
fn check_object<'v>(limits: &Limits, schema: &'v Value) -> Result<(), Refusal<'v>>
    ensures { condition_of result
        ≡ first_cause (object_schema_conditions (limits_view limits.now) (view schema.now)) }
{
    let columns = columns_in(schema);
    absent(schema, "separator")?;
    check_inherited(schema)?;
    check_count(
        limits.columns,
        MetaFault::NoColumns,
        MetaFault::TooManyColumns,
        columns,
    )?;
    check_columns(columns)?;
    ensure(has_key_or_none(schema, columns), MetaFault::BadKey)
}

/// Returns the conditions on what a table, or its group, has as `tableSchema`.
#[tactic(auto, unfolding(crate::specs::Schema::schema_conditions))]
pub(crate) fn check_schema<'v>(
    limits: &Limits,
    schema: Option<&'v Value>,
) -> Result<(), Refusal<'v>>
    ensures { condition_of result
        ≡ first_cause (schema_conditions (limits_view limits.now)
        (option_map (λ v. view v.now) schema.entry)) }
{
    match schema {
        Some(Value::String(_)) => Err(Refusal::Unsupported("tableSchema")),
        Some(schema) if schema.is_object() => check_object(limits, schema),
        _ => Err(Refusal::Fault(MetaFault::NoColumns)),
    }
}

/// Returns what the columns of a schema say, with that table and that group around it.
pub(crate) fn make_columns(
    alloc: Global,
    schema: &Value,
    table: &Value,
    group: &Value,
) -> Result<Vec<Column>, AllocError>
    ensures { IfOk result (λ made.
        map column_view made.items
        ≡ map (said_column (view schema.now ∷ view table.now ∷ view group.now ∷ []))
        (columns_of (view schema.now))) }
{
    let columns = columns_in(schema);
    let mut made = Vec::with_capacity(alloc, columns.len())?;
    for column in columns {
        made.push(make_column(alloc, schema, table, group, column)?)?;
    }
    Ok(made)
}
