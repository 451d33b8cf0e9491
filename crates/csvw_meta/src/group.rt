//! A group of tables: the conditions on it, and the schemas of its tables.
ghost use Rattle.std.specs.Prelude.{◌≡◌, [], map, IfOk};
ghost use Rattle.serde_json.specs.View.{view};
ghost use Rattle.csvw_meta.specs.Limits.{limits_view};
ghost use Rattle.csvw_meta.specs.Refusal.{condition_of, first_cause, each_conditions};
ghost use Rattle.csvw_meta.specs.Schema.{schema_view};
ghost use Rattle.csvw_meta.specs.Table.{table_conditions};
ghost use Rattle.csvw_meta.specs.Group.{tables_in as tables_of, group_conditions, group_schemas};

use crate::fault::MetaFault;
use crate::limits::Limits;
use crate::members::{array_member, check_count};
use crate::refusal::Refusal;
use crate::schema::Schema;
use crate::table::{check_level, check_table, make_table};
use serde_json::Value;
use std::alloc::{AllocError, Global};

/// Returns the tables of a group.
fn tables_in(group: &Value) -> &[Value]
    ensures { map view result.now ≡ tables_of (view group.now) }
{
    array_member(group, "tables")
}

/// Returns the conditions on the tables of a group, one after another.
fn check_tables<'v>(
    limits: &Limits,
    group: &'v Value,
    tables: &'v [Value],
) -> Result<(), Refusal<'v>>
    ensures { condition_of result
        ≡ first_cause (each_conditions (table_conditions (limits_view limits.now) (view group.now))
        [] (map view tables.now)) }
{
    for (i, table) in tables.iter().enumerate() {
        check_table(limits, group, &tables[..i], table)?;
    }
    Ok(())
}

/// Returns the conditions on a group.
#[tactic(auto, using(crate::proofs::RefusalLemmas::conditions), unfolding(crate::specs::Group::group_conditions))]
pub(crate) fn check_group<'v>(limits: &Limits, group: &'v Value) -> Result<(), Refusal<'v>>
    ensures { condition_of result
        ≡ first_cause (group_conditions (limits_view limits.now) (view group.now)) }
{
    let tables = tables_in(group);
    check_count(
        limits.tables,
        MetaFault::NoTables,
        MetaFault::TooManyTables,
        tables,
    )?;
    check_level(group)?;
    check_tables(limits, group, tables)
}

/// Returns what a group says, table by table.
pub(crate) fn make_group(alloc: Global, group: &Value) -> Result<Vec<Schema>, AllocError>
    ensures { IfOk result (λ made. map schema_view made.items ≡ group_schemas (view group.now)) }
{
    let tables = tables_in(group);
    let mut made = Vec::with_capacity(alloc, tables.len())?;
    for table in tables {
        made.push(make_table(alloc, group, table)?)?;
    }
    Ok(made)
}
