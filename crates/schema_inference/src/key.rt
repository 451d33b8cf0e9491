//! The key of a table.
use csv_index::{Fields, IndexedText, Raw};
use insertion_map::KeyPlaces;
use std::alloc::{AllocError, Global};

/// The most bytes of a text in a key.
const MOST_KEY: usize = 64;

/// Returns the first field of the next record, and passes its others.
fn first_field<'a>(fields: &mut Fields<'_, 'a>, width: usize) -> Option<Raw<'a>> {
    let first = fields.next_field();
    for _passed in 1..width {
        fields.pass();
    }
    first
}

/// Adds the cells of the first column to `keys`. Returns false at one that is empty or too long, or is there already.
fn add_keys<'a>(keys: &mut KeyPlaces<&'a str>, file: &'a IndexedText) -> Result<bool, AllocError> {
    let mut fields = file.fields(0);
    for _row in 0..file.rows() {
        match first_field(&mut fields, file.width()) {
            Some(raw) if !raw.bytes.is_empty() && raw.bytes.len() <= MOST_KEY => {
                if !keys.insert(raw.bytes)? {
                    return Ok(false);
                }
            }
            _ => return Ok(false),
        }
    }
    Ok(true)
}

/// Returns true if the first column may be the key, as far as these rows show: no cell of theirs is empty or too long, and none is another's too. Fields that are the
/// same texts have the same bytes.
pub(crate) fn may_be_key<'a>(alloc: Global, file: &'a IndexedText) -> Result<bool, AllocError> {
    let mut keys = KeyPlaces::with_capacity(alloc, file.rows())?;
    add_keys(&mut keys, file)
}
