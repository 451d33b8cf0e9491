//! The hashes of keys.
ghost use Rattle.std.specs.Prelude.{◌≡◌, map};
ghost use Rattle.cell_types.specs.Value.{value_view};
ghost use Rattle.key_index.specs.Hashes.{hash_cell, key_hash};

use cell_types::{Value, number_of};
use std::hash::{FoldHasher, Hasher};

/// Writes a value into a hasher.
fn hash_value(hasher: &mut FoldHasher, value: &Value<'_>)
    ensures { hasher.new ≡ hash_cell hasher.old (value_view value.now) }
{
    match value {
        Value::Text(text) => hasher.write(text.as_str().as_bytes()),
        _ => {
            if let Some(number) = number_of(value) {
                hasher.write_i128(number);
            }
        }
    }
}

/// Returns the hash of a key.
pub fn hash_of(key: &[Value<'_>]) -> u64
    ensures { result ≡ key_hash (map value_view key.now) }
{
    let mut hasher = FoldHasher::default();
    for value in key {
        hash_value(&mut hasher, value);
    }
    hasher.finish()
}
