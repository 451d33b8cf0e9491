//! The columns of a schema: the conditions on them, and what they say.
ghost use Rattle.std.specs.Prelude.{◌≡◌, [], ◌∷◌, codes, map, IfOk};
ghost use Rattle.serde_json.specs.View.{view};
ghost use Rattle.cell_types.specs.Column.{column_view};
ghost use Rattle.csvw_meta.specs.Refusal.{condition_of, first_cause};
ghost use Rattle.csvw_meta.specs.Members.{member as member_of};
ghost use Rattle.csvw_meta.specs.Column.{is_real as is_real_of, name_of as name_in, names_a_column as has_name_among, object_column_conditions, column_conditions, said_column};

use crate::datatype::make_datatype;
use crate::fault::MetaFault;
use crate::forms::is_column_name;
use crate::inherited::{check_inherited, is_required, make_default, make_nulls};
use crate::members::{absent, has, member, nearest, text_member};
use crate::refusal::{Refusal, ensure, ensure_served};
use crate::texts::{is_titles, make_titles};
use cell_types::Column;
use serde_json::Value;
use std::alloc::{AllocError, Global};

/// Returns the name of a column, empty if it has none.
pub(crate) fn name_of(column: &Value) -> &str
    ensures { result.now ≡ name_in (view column.now) }
{
    text_member(column, "name")
}

/// Returns true if `virtual` is absent or false.
fn is_real(column: &Value) -> bool
    ensures { result ≡ is_real_of (member_of (codes "virtual") (view column.now)) }
{
    match member(column, "virtual") {
        None | Some(Value::Bool(false)) => true,
        Some(_) => false,
    }
}

/// Returns true if one of the columns has the name.
pub(crate) fn has_name(columns: &[Value], name: &str) -> bool
    ensures { result ≡ has_name_among (map view columns.now) name.now }
{
    columns.iter().any(|column| name == name_of(column))
}

/// Checks the conditions on a column that is an object, after the earlier ones.
#[tactic(auto, using(crate::proofs::RefusalLemmas::conditions), unfolding(crate::specs::Column::object_column_conditions))]
fn check_object<'v>(earlier: &'v [Value], column: &'v Value) -> Result<(), Refusal<'v>>
    ensures { condition_of result
        ≡ first_cause (object_column_conditions (map view earlier.now) (view column.now)) }
{
    ensure_served(is_real(column), "virtual")?;
    absent(column, "separator")?;
    ensure_served(has(column, "name"), "name")?;
    ensure(is_column_name(name_of(column)), MetaFault::BadName)?;
    ensure(
        !has_name(earlier, name_of(column)),
        MetaFault::DuplicateName,
    )?;
    ensure(
        member(column, "titles").is_none_or(is_titles),
        MetaFault::BadTitles,
    )?;
    check_inherited(column)
}

/// Checks the conditions on a column, after the earlier ones.
#[tactic(auto, unfolding(crate::specs::Column::column_conditions))]
pub(crate) fn check_column<'v>(earlier: &'v [Value], column: &'v Value) -> Result<(), Refusal<'v>>
    ensures { condition_of result
        ≡ first_cause (column_conditions (map view earlier.now) (view column.now)) }
{
    if column.is_object() {
        check_object(earlier, column)
    } else {
        Err(Refusal::Fault(MetaFault::NotObject))
    }
}

/// Returns what a column says, with that schema, that table and that group around it.
pub(crate) fn make_column(
    alloc: Global,
    schema: &Value,
    table: &Value,
    group: &Value,
    column: &Value,
) -> Result<Column, AllocError>
    ensures { IfOk result (λ made.
        column_view made ≡ said_column (view schema.now ∷ view table.now ∷ view group.now ∷ [])
        (view column.now)) }
{
    let levels = [column, schema, table, group];
    Ok(Column {
        name: String::from_str(alloc, name_of(column))?,
        titles: make_titles(alloc, member(column, "titles"))?,
        datatype: make_datatype(alloc, nearest(&levels, "datatype"))?,
        nulls: make_nulls(alloc, nearest(&levels, "null"))?,
        default: make_default(alloc, nearest(&levels, "default"))?,
        required: is_required(nearest(&levels, "required")),
    })
}
