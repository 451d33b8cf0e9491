//! The datatypes that metadata says, and their formats.
ghost use Rattle.std.specs.Prelude.{◌≡◌, Some, option_map, is_some, IfOk};
ghost use Rattle.serde_json.specs.View.{view};
ghost use Rattle.cell_types.specs.Datatype.{datatype_view};
ghost use Rattle.csvw_meta.specs.Refusal.{condition_of, first_cause};
ghost use Rattle.csvw_meta.specs.Datatype.{base_in as base_of, constraint_conditions, datatype_conditions};
ghost use Rattle.csvw_meta.specs.Datatype.{datatype_in as datatype_in_of, datatype_member_conditions, datatype_name as datatype_name_of};
ghost use Rattle.csvw_meta.specs.Datatype.{datatype_of, datatype_with, may_have_format as may_have_format_of};

use crate::fault::MetaFault;
use crate::members::{absent, has, member};
use crate::refusal::{Refusal, ensure, ensure_served};
use cell_types::Datatype;
use datatype_texts::{datatype_named, has_format, has_formats, with_format};
use serde_json::Value;
use std::alloc::{AllocError, Global};

/// Returns the name of a datatype: a text, or what an object has for `base`, which is `string` if it has none.
fn datatype_name(datatype: &Value) -> Option<&str>
    ensures { option_map (λ name. name.now) result ≡ datatype_name_of (view datatype.now) }
{
    match datatype {
        Value::String(name) => Some(name.as_str()),
        Value::Object(_) => match member(datatype, "base") {
            Some(base) => base.as_str(),
            None => Some("string"),
        },
        _ => None,
    }
}

/// Returns the datatype of a value's name, if it is served, as it is without a format.
fn base_in(datatype: &Value) -> Option<Datatype>
    ensures { option_map datatype_view result ≡ base_of (view datatype.now) }
{
    match datatype_name(datatype) {
        Some(name) => datatype_named(name),
        None => None,
    }
}

/// Returns true if the datatype of a value's name is served.
fn is_served(datatype: &Value) -> bool
    ensures { result ≡ is_some (base_of (view datatype.now)) }
{
    base_in(datatype).is_some()
}

/// Returns true if a datatype has no format, or is one whose texts have one.
fn may_have_format(datatype: &Value) -> bool
    ensures { result ≡ may_have_format_of (view datatype.now) }
{
    if !has(datatype, "format") {
        return true;
    }
    match base_in(datatype) {
        Some(base) => has_formats(&base),
        None => false,
    }
}

/// Returns true if a datatype has that format.
fn is_format(base: &Datatype, format: &Value) -> bool
    ensures { result ≡ is_some (datatype_with (datatype_view base.now) (Some (view format.now))) }
{
    if !has_formats(base) {
        return true;
    }
    match format.as_str() {
        Some(format) => has_format(base, format),
        None => false,
    }
}

/// Returns true if a value is a datatype that is served.
fn is_datatype(datatype: &Value) -> bool
    ensures { result ≡ is_some (datatype_in_of (view datatype.now)) }
{
    match (base_in(datatype), member(datatype, "format")) {
        (Some(base), Some(format)) => is_format(&base, format),
        (base, _) => base.is_some(),
    }
}

/// Checks that a datatype has none of the constraints, which are not served.
#[tactic(auto, unfolding(crate::specs::Datatype::constraint_conditions))]
fn check_constraints<'v>(datatype: &'v Value) -> Result<(), Refusal<'v>>
    ensures { condition_of result ≡ first_cause (constraint_conditions (view datatype.now)) }
{
    absent(datatype, "length")?;
    absent(datatype, "minLength")?;
    absent(datatype, "maxLength")?;
    absent(datatype, "minimum")?;
    absent(datatype, "maximum")?;
    absent(datatype, "minInclusive")?;
    absent(datatype, "maxInclusive")?;
    absent(datatype, "minExclusive")?;
    absent(datatype, "maxExclusive")
}

/// Returns the conditions on a datatype.
#[tactic(auto, using(crate::proofs::RefusalLemmas::conditions), unfolding(crate::specs::Datatype::datatype_conditions))]
fn check_present<'v>(datatype: &'v Value) -> Result<(), Refusal<'v>>
    ensures { condition_of result ≡ first_cause (datatype_conditions (view datatype.now)) }
{
    let name = datatype_name(datatype);
    ensure(name.is_some(), MetaFault::BadDatatype)?;
    ensure_served(is_served(datatype), name.unwrap_or(""))?;
    check_constraints(datatype)?;
    ensure_served(may_have_format(datatype), "format")?;
    ensure(is_datatype(datatype), MetaFault::BadFormat)
}

/// Returns the conditions on what a level has for `datatype`.
#[tactic(auto, unfolding(crate::specs::Datatype::datatype_member_conditions))]
pub(crate) fn check_datatype<'v>(datatype: Option<&'v Value>) -> Result<(), Refusal<'v>>
    ensures { condition_of result
        ≡ first_cause (datatype_member_conditions (option_map (λ v. view v.now) datatype.entry)) }
{
    match datatype {
        Some(datatype) => check_present(datatype),
        None => Ok(()),
    }
}

/// Returns a datatype with a format, if it has that format.
fn make_with(alloc: Global, base: Datatype, format: &Value) -> Result<Option<Datatype>, AllocError>
    ensures { IfOk result (λ made.
        option_map datatype_view made
        ≡ datatype_with (datatype_view base) (Some (view format.now))) }
{
    if !has_formats(&base) {
        return Ok(Some(base));
    }
    match format.as_str() {
        Some(format) => with_format(alloc, &base, format),
        None => Ok(None),
    }
}

/// Returns the datatype that a value is, if it is one that is served.
fn make_served(alloc: Global, datatype: &Value) -> Result<Option<Datatype>, AllocError>
    ensures { IfOk result
        (λ made. option_map datatype_view made ≡ datatype_in_of (view datatype.now)) }
{
    match (base_in(datatype), member(datatype, "format")) {
        (Some(base), Some(format)) => make_with(alloc, base, format),
        (base, _) => Ok(base),
    }
}

/// Returns the datatype of a column, from the nearest level that says one; texts if none does.
pub(crate) fn make_datatype(alloc: Global, datatype: Option<&Value>) -> Result<Datatype, AllocError>
    ensures { IfOk result
        (λ made. datatype_view made ≡ datatype_of (option_map (λ v. view v.now) datatype.entry)) }
{
    match datatype {
        Some(datatype) => Ok(make_served(alloc, datatype)?.unwrap_or(Datatype::Text)),
        None => Ok(Datatype::Text),
    }
}
