//! The members of objects. One whose value is null counts as absent.
ghost use Rattle.std.specs.Prelude.{◌≡◌, map, option_map};
ghost use Rattle.serde_json.specs.View.{view};
ghost use Rattle.csvw_meta.specs.Members.{member as member_of, has as has_of, text_member as text_member_of, array_member as array_member_of, absent as absent_of, nearest as nearest_of, count_conditions};
ghost use Rattle.csvw_meta.specs.Fault.{fault_cause};
ghost use Rattle.csvw_meta.specs.Refusal.{condition_of, first_cause};

use crate::fault::MetaFault;
use crate::refusal::{Refusal, ensure, ensure_served};
use serde_json::Value;

/// Returns the value of that member if there is one.
pub(crate) fn member<'v>(value: &'v Value, name: &str) -> Option<&'v Value>
    ensures { option_map (λ v. view v.now) result ≡ member_of name.now (view value.now) }
{
    match value.get(name) {
        Some(Value::Null) => None,
        found => found,
    }
}

/// Returns true if there is such a member.
pub(crate) fn has(value: &Value, name: &str) -> bool
    ensures { result ≡ has_of name.now (view value.now) }
{
    member(value, name).is_some()
}

/// Returns the text of that member, empty if it has none.
pub(crate) fn text_member<'v>(value: &'v Value, name: &str) -> &'v str
    ensures { result.now ≡ text_member_of name.now (view value.now) }
{
    member(value, name).and_then(Value::as_str).unwrap_or("")
}

/// Returns the values of that member, none if it is no array.
pub(crate) fn array_member<'v>(value: &'v Value, name: &str) -> &'v [Value]
    ensures { map view result.now ≡ array_member_of name.now (view value.now) }
{
    match member(value, name).and_then(Value::as_array) {
        Some(items) => items.as_slice(),
        None => &[],
    }
}

/// Checks that there is no such member, for it is not served.
pub(crate) fn absent<'k>(value: &Value, name: &'k str) -> Result<(), Refusal<'k>>
    ensures { condition_of result ≡ absent_of name.now (view value.now) }
{
    ensure_served(!has(value, name), name)
}

/// Checks that there is a value, and that there are no more than the limit.
#[tactic(auto, unfolding(crate::specs::Members::count_conditions))]
pub(crate) fn check_count<'k>(
    limit: u32,
    none: MetaFault,
    many: MetaFault,
    values: &[Value],
) -> Result<(), Refusal<'k>>
    ensures { condition_of result
        ≡ first_cause (count_conditions limit (fault_cause none) (fault_cause many)
        (map view values.now)) }
{
    ensure(!values.is_empty(), none)?;
    ensure(values.len() <= limit as usize, many)
}

/// Returns that member at the first level that has it.
pub(crate) fn nearest<'v>(levels: &[&'v Value], name: &str) -> Option<&'v Value>
    ensures { option_map (λ v. view v.now) result
        ≡ nearest_of name.now (map (λ level. view level.now) levels.now) }
{
    for level in levels {
        if let Some(found) = member(level, name) {
            return Some(found);
        }
    }
    None
}
