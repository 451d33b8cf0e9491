//! The cells of keys, as the columns of a table have them.
ghost use Rattle.std.specs.Prelude.{◌≡◌, ◌≢◌, ◌<◌, true, false, OnOk, All, length, map};
ghost use Rattle.cell_types.specs.Value.{null, value_eq, value_view};
ghost use Rattle.key_index.specs.Key.{row_key, has_null as has_null_in};
ghost use Rattle.key_index.specs.Keys.{typed_row};

use cell_types::Value;
use column_blocks::TypedColumn;
use std::alloc::AllocError;

/// Writes the key of a row over `key`: its values in the columns at `places`.
pub fn write_key<'a>(
    columns: &'a [TypedColumn],
    places: &[usize],
    row: usize,
    key: &mut Vec<Value<'a>>,
) -> Result<(), AllocError>
    requires { All (λ place. place < length columns.now) places.now }
    ensures { OnOk result
        (map value_view key.new.items ≡ row_key places.now (typed_row row columns.now)) }
{
    key.clear();
    for place in places {
        key.push(columns[*place].value(row))?;
    }
    Ok(())
}

/// Returns true if a row has a key.
pub fn has_key(columns: &[TypedColumn], places: &[usize], row: usize, key: &[Value<'_>]) -> bool
    requires { All (λ place. place < length columns.now) places.now }
    ensures yes { result ≡ true
        → map value_view key.now ≡ row_key places.now (typed_row row columns.now) }
    ensures no { result ≡ false
        → map value_view key.now ≢ row_key places.now (typed_row row columns.now) }
{
    if key.len() != places.len() {
        return false;
    }
    cell_types::values_compare_as_their_views();
    cell_types::values_are_ordered();
    for i in 0..key.len() {
        if key[i] != columns[places[i]].value(row) {
            return false;
        }
    }
    true
}

/// Returns true if a value is null.
#[tactic(auto, unfolding(cell_types::specs::Value::value_eq))]
fn is_null(value: &Value<'_>) -> bool
    ensures { result ≡ value_eq null (value_view value.now) }
{
    matches!(value, Value::Null)
}

/// Returns true if a key has a null.
pub fn has_null(key: &[Value<'_>]) -> bool
    ensures { result ≡ has_null_in (map value_view key.now) }
{
    for value in key {
        if is_null(value) {
            return true;
        }
    }
    false
}
