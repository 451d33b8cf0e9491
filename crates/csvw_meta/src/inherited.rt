//! The members that a column inherits from its schema, its table and the group.
ghost use Rattle.std.specs.Prelude.{◌≡◌, map, option_map, IfOk, string_bytes};
ghost use Rattle.serde_json.specs.View.{view};
ghost use Rattle.csvw_meta.specs.Refusal.{condition_of, first_cause};
ghost use Rattle.csvw_meta.specs.Inherited.{inherited_conditions, is_short_text as is_short_text_of, nulls_of, default_of, required_of};

use crate::datatype::check_datatype;
use crate::fault::MetaFault;
use crate::limits::MOST_METADATA_BYTES;
use crate::members::member;
use crate::refusal::{Refusal, ensure};
use crate::texts::{is_texts, make_texts};
use serde_json::Value;
use std::alloc::{AllocError, Global};

/// Returns true if it is a text of at most as many bytes as metadata may have, as each text in metadata is.
fn is_short_text(value: &Value) -> bool
    ensures { result ≡ is_short_text_of (view value.now) }
{
    match value.as_str() {
        Some(text) => text.len() <= MOST_METADATA_BYTES,
        None => false,
    }
}

/// Returns the conditions on what a level says for the columns in it.
#[tactic(auto, using(crate::proofs::RefusalLemmas::conditions), unfolding(crate::specs::Inherited::inherited_conditions))]
pub(crate) fn check_inherited<'v>(level: &'v Value) -> Result<(), Refusal<'v>>
    ensures { condition_of result ≡ first_cause (inherited_conditions (view level.now)) }
{
    check_datatype(member(level, "datatype"))?;
    ensure(
        member(level, "null").is_none_or(is_texts),
        MetaFault::BadNull,
    )?;
    ensure(
        member(level, "default").is_none_or(is_short_text),
        MetaFault::BadDefault,
    )?;
    ensure(
        member(level, "required").is_none_or(Value::is_boolean),
        MetaFault::BadRequired,
    )
}

/// Returns the texts that stand for null: the empty one if no level says any.
pub(crate) fn make_nulls(alloc: Global, nulls: Option<&Value>) -> Result<Vec<String>, AllocError>
    ensures { IfOk result (λ made. map string_bytes made.items
        ≡ nulls_of (option_map (λ v. view v.now) nulls.entry)) }
{
    match nulls {
        Some(nulls) => make_texts(alloc, nulls),
        None => {
            let mut made = Vec::new(alloc);
            made.push(String::new(alloc))?;
            Ok(made)
        }
    }
}

/// Returns what an empty text stands for: the empty text if no level says another.
pub(crate) fn make_default(alloc: Global, default: Option<&Value>) -> Result<String, AllocError>
    ensures { IfOk result
        (λ made. string_bytes made ≡ default_of (option_map (λ v. view v.now) default.entry)) }
{
    String::from_str(alloc, default.and_then(Value::as_str).unwrap_or(""))
}

/// Returns true if a value is required: not if no level says so.
pub(crate) fn is_required(required: Option<&Value>) -> bool
    ensures { result ≡ required_of (option_map (λ v. view v.now) required.entry) }
{
    required.and_then(Value::as_bool).unwrap_or(false)
}
