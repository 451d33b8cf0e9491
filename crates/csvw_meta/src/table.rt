//! The tables of metadata: the conditions on them, and their schemas.
ghost use Rattle.std.specs.Prelude.{◌≡◌, map, option_map, IfOk};
ghost use Rattle.serde_json.specs.View.{view};
ghost use Rattle.csvw_meta.specs.Limits.{limits_view};
ghost use Rattle.csvw_meta.specs.Refusal.{condition_of, first_cause};
ghost use Rattle.csvw_meta.specs.Schema.{schema_view};
ghost use Rattle.csvw_meta.specs.Table.{url_of as url_in, has_url as has_url_among, schema_in as schema_of, level_conditions, object_table_conditions, table_conditions, table_schema};

use crate::fault::MetaFault;
use crate::forms::{is_table_url, table_name};
use crate::inherited::check_inherited;
use crate::limits::Limits;
use crate::members::{absent, nearest, text_member};
use crate::refusal::{Refusal, ensure};
use crate::schema::{Schema, check_schema, make_columns, make_schema_key};
use serde_json::Value;
use std::alloc::{AllocError, Global};

/// Returns the url of a table, empty if it has none.
fn url_of(table: &Value) -> &str
    ensures { result.now ≡ url_in (view table.now) }
{
    text_member(table, "url")
}

/// Returns true if one of the tables has the url.
fn has_url(tables: &[Value], url: &str) -> bool
    ensures { result ≡ has_url_among (map view tables.now) url.now }
{
    tables.iter().any(|table| url == url_of(table))
}

/// Returns the schema of a table: its own, else that of its group.
fn schema_in<'v>(group: &'v Value, table: &'v Value) -> Option<&'v Value>
    ensures { option_map (λ v. view v.now) result ≡ schema_of (view group.now) (view table.now) }
{
    nearest(&[table, group], "tableSchema")
}

/// Returns what is not served at a table or a group, and what its columns inherit.
#[tactic(auto, using(crate::proofs::RefusalLemmas::conditions), unfolding(crate::specs::Table::level_conditions))]
pub(crate) fn check_level<'v>(level: &'v Value) -> Result<(), Refusal<'v>>
    ensures { condition_of result ≡ first_cause (level_conditions (view level.now)) }
{
    absent(level, "dialect")?;
    absent(level, "transformations")?;
    absent(level, "separator")?;
    check_inherited(level)
}

/// Checks the conditions on a table that is an object, after the earlier ones of its group.
#[tactic(auto, using(crate::proofs::RefusalLemmas::conditions), unfolding(crate::specs::Table::object_table_conditions))]
fn check_object<'v>(
    limits: &Limits,
    group: &'v Value,
    earlier: &'v [Value],
    table: &'v Value,
) -> Result<(), Refusal<'v>>
    ensures { condition_of result
        ≡ first_cause (object_table_conditions (limits_view limits.now) (view group.now)
        (map view earlier.now) (view table.now)) }
{
    ensure(is_table_url(url_of(table)), MetaFault::BadUrl)?;
    ensure(!has_url(earlier, url_of(table)), MetaFault::DuplicateUrl)?;
    check_level(table)?;
    check_schema(limits, schema_in(group, table))
}

/// Checks the conditions on a table, after the earlier ones of its group. A table without a group is in one that is null.
#[tactic(auto, unfolding(crate::specs::Table::table_conditions))]
pub(crate) fn check_table<'v>(
    limits: &Limits,
    group: &'v Value,
    earlier: &'v [Value],
    table: &'v Value,
) -> Result<(), Refusal<'v>>
    ensures { condition_of result
        ≡ first_cause (table_conditions (limits_view limits.now) (view group.now)
        (map view earlier.now) (view table.now)) }
{
    if table.is_object() {
        check_object(limits, group, earlier, table)
    } else {
        Err(Refusal::Fault(MetaFault::NotObject))
    }
}

/// Returns what a table of that group says.
pub(crate) fn make_table(alloc: Global, group: &Value, table: &Value) -> Result<Schema, AllocError>
    ensures { IfOk result
        (λ schema. schema_view schema ≡ table_schema (view group.now) (view table.now)) }
{
    let url = url_of(table);
    let schema = schema_in(group, table).unwrap_or(&Value::Null);
    Ok(Schema {
        url: String::from_str(alloc, url)?,
        name: String::from_str(alloc, table_name(url))?,
        columns: make_columns(alloc, schema, table, group)?,
        key: make_schema_key(alloc, schema)?,
    })
}
